// A text heard from its first character to its last.
use crate::field::Field;
use crate::form::is_last;
use basis::Refusal;
use reader::Fault;
use rival_bytes::{NO_TABLE, judge_number, judge_rows, numbers, with_number};
use table::Table;

// The end of number k at a place: a CRLF after the last of a line, and after no other.
fn judge_end(t: Table, k: usize, end: usize, crlf: bool) -> Result<(), Fault> {
    let why = match (crlf, is_last(t, k)) {
        (true, false) => Refusal::EndsEarly,
        (false, true) => Refusal::Extra,
        _ => return Ok(()),
    };
    Err(Fault { why, place: end })
}

// The table with number k, which is field f and ends at a place: the number is judged, its end, and after the last row the rows.
fn judge_field(t: Table, k: usize, f: Field, end: usize, crlf: bool) -> Result<Table, Fault> {
    let at_start = |why: Refusal| Fault {
        why,
        place: f.start,
    };
    let v = f.value().map_err(at_start)?;
    let u = with_number(t, k, v);
    judge_number(u, k, v).map_err(at_start)?;
    judge_end(u, k, end, crlf)?;
    judge_rows(u, k).map_err(at_start)?;
    Ok(u)
}

// The character at a place ends field f.
fn judge_at(t: Table, k: usize, f: Field, b: u8, at: usize) -> Result<Table, Fault> {
    let crlf = f.is_crlf(b);
    let end = if crlf { at.wrapping_sub(1) } else { at };
    judge_field(t, k, f.ended(b), end, crlf)
}

pub fn read(s: &[u8]) -> Result<Table, Fault> {
    let mut t = NO_TABLE;
    let mut k = 0usize;
    let mut f = Field::new(0);
    for (place, b) in s.iter().enumerate() {
        if k == numbers(t) {
            return Err(Fault {
                why: Refusal::Extra,
                place,
            });
        }
        if f.ends(*b) {
            t = judge_at(t, k, f, *b, place)?;
            k = k.wrapping_add(1);
            f = Field::new(place.wrapping_add(1));
        } else {
            f = f.heard(*b);
        }
    }
    if k == numbers(t) {
        return Ok(t);
    }
    Err(Fault {
        why: Refusal::EndsEarly,
        place: f.start,
    })
}
