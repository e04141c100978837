// The form of a table in bytes, and writing it, whether the table is legal or not.
use crate::page::Page;
use table::{Table, Thread};

// Number k is a row, the first three left out, where this is below the number of domains.
pub fn row_of(k: usize) -> usize {
    k.wrapping_sub(3)
}

// Number k is this field, counted from the first of thread 0.
fn after_rows(t: Table, k: usize) -> usize {
    row_of(k).wrapping_sub(t.domains as usize)
}

// A thread has seven numbers, and in version 2 its kind as the eighth.
fn numbers_of_thread(t: Table) -> usize {
    if t.version == 2 { 8 } else { 7 }
}

pub fn thread_of(t: Table, k: usize) -> usize {
    after_rows(t, k)
        .checked_div(numbers_of_thread(t))
        .unwrap_or(0)
}

pub fn field_of(t: Table, k: usize) -> usize {
    after_rows(t, k)
        .checked_rem(numbers_of_thread(t))
        .unwrap_or(0)
}

// How many numbers a table has.
pub fn numbers(t: Table) -> usize {
    let of_threads = (t.count as usize).wrapping_mul(numbers_of_thread(t));
    of_threads.wrapping_add(3 + t.domains as usize)
}

fn field(f: Thread, k: usize) -> u16 {
    match k {
        0 => f.domain as u16,
        1 => f.priority as u16,
        2 => f.period,
        3 => f.offset,
        4 => f.budget,
        5 => f.deadline,
        6 => f.blocking,
        _ => f.kind as u16,
    }
}

// Number k of a table.
pub fn value(t: Table, k: usize) -> u16 {
    match k {
        0 => t.version as u16,
        1 => t.domains as u16,
        2 => t.count as u16,
        _ => {
            if row_of(k) < t.domains as usize {
                return t.rows[row_of(k) % 16];
            }
            field(t.threads[thread_of(t, k) % 32], field_of(t, k))
        }
    }
}

// The three bytes of a number, and how many of them count.
fn low(v: u16) -> u8 {
    let bits = (v % 128) as u8;
    if v < 128 { bits } else { bits + 128 }
}

fn middle(v: u16) -> u8 {
    let bits = (v / 128 % 128) as u8;
    if v < 16384 { bits } else { bits + 128 }
}

fn size(v: u16) -> usize {
    if v < 128 {
        return 1;
    }
    if v < 16384 { 2 } else { 3 }
}

// Each number is put with three bytes, and the next over those that do not count, which are zero.
pub fn write(t: Table) -> Page<900> {
    let mut page = Page {
        bytes: [0; 900],
        len: 0,
    };
    for k in 0..numbers(t) {
        let v = value(t, k);
        let at = page.len;
        page.set(at, low(v));
        page.set(at.wrapping_add(1), middle(v));
        page.set(at.wrapping_add(2), (v / 16384) as u8);
        page.len = at.wrapping_add(size(v));
    }
    page
}
