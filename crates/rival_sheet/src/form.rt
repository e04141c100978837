// The form of a table in lines, and writing it, whether the table is legal or not.
use rival_bytes::{Page, numbers, value};
use table::Table;

// Room for every number with five digits and its end.
pub type Sheet = Page<2000>;

// Whether number k is the last of its line.
pub fn is_last(t: Table, k: usize) -> bool {
    let next = k.wrapping_add(1);
    if k < 3 {
        return next == 3;
    }
    if rival_bytes::row_of(k) < t.domains as usize {
        return rival_bytes::row_of(next) == t.domains as usize;
    }
    rival_bytes::field_of(t, next) == 0
}

// From the largest power of ten down, with no zero before the first other digit; the last is put in any case.
fn put_number(sheet: &mut Sheet, v: u16) {
    let digits = [v / 10000, v / 1000 % 10, v / 100 % 10, v / 10 % 10, v % 10];
    let first = digits.iter().position(|d| *d != 0).unwrap_or(4);
    for d in digits.iter().skip(first) {
        sheet.push(48 + (d % 10) as u8);
    }
}

fn put_end(sheet: &mut Sheet, last: bool) {
    if last {
        sheet.push(13);
        sheet.push(10);
    } else {
        sheet.push(44);
    }
}

pub fn write(t: Table) -> Sheet {
    let mut sheet = Page {
        bytes: [0; 2000],
        len: 0,
    };
    for k in 0..numbers(t) {
        put_number(&mut sheet, value(t, k));
        put_end(&mut sheet, is_last(t, k));
    }
    sheet
}
