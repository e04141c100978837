// One line of rows: its own faults, leftmost first.
ghost use Rattle.std.specs.Prelude.{◌≡◌};
ghost use Rattle.basis.specs.Refusals.{number};
ghost use Rattle.typed.specs.Fields.{field_of};
ghost use Rattle.typed.specs.RowLine.{rows_of, padded, row_given, unended, no_rows, refused_at, row_added, row_taken, row_character, rows_fed, rows_closed, rows_read};

use super::characters::{ends_line, feed, new_text};
use super::lists::{one_more, stored};
use super::numbers::is_plain;
use super::{Fault, Field, Rows, Size};
use basis::Refusal;

// The start of the line.
pub fn new_rows() -> Rows
    ensures { rows_of result ≡ no_rows }
{
    Rows {
        field: new_text(),
        count: 0,
        rows: [0u16; 16],
        starts: [0u64; 17],
        done: false,
        fault: None,
    }
}

// Whether a zero stands before another character.
#[tactic(auto, unfolding(crate::specs::RowLine::padded))]
fn is_padded(f: Field) -> bool
    ensures { result ≡ padded (field_of f) }
{
    matches!(f.size, Size::More(b'0'))
}

// The row that an ended field is, or why it is refused.
#[tactic(auto, unfolding(crate::specs::RowLine::fault, basis::specs::Tests::pick))]
fn row_of(f: Field) -> Result<u16, Refusal>
    ensures { row_given result (field_of f) }
{
    if f.size == Size::Empty {
        return Err(Refusal::EndsEarly);
    }
    if is_padded(f) || !is_plain(f) {
        return Err(Refusal::NotShortest);
    }
    if 65535 < f.value {
        return Err(Refusal::TooLarge);
    }
    Ok(f.value as u16)
}

#[tactic(auto, unfolding(crate::specs::RowLine::refused_at))]
fn refuse(r: Rows, why: Refusal, place: u64) -> Rows
    ensures { rows_of result ≡ refused_at (number why) place (rows_of r) }
{
    Rows {
        fault: Some(Fault { why, place }),
        ..r
    }
}

// A row more, with the place of its field.
#[tactic(auto, unfolding(crate::specs::RowLine::row_added, crate::specs::RowLine::counted))]
fn add_row(r: Rows, f: Field, v: u16) -> Rows
    requires { v ≡ f.value }
    ensures { rows_of result ≡ row_added (rows_of r) (field_of f) }
{
    Rows {
        field: f,
        count: one_more(r.count, 17),
        rows: stored(r.rows, r.count, v),
        starts: stored(r.starts, r.count, f.start),
        done: ends_line(f),
        ..r
    }
}

// A field that has ended.
fn take_row(r: Rows, f: Field) -> Rows
    ensures { rows_of result ≡ row_taken (rows_of r) (field_of f) }
{
    match row_of(f) {
        Ok(v) => add_row(r, f, v),
        Err(why) => refuse(r, why, f.start),
    }
}

// The line's field, one character further. Windows have the like: a trait of both, with its laws, would be longer than the two functions.
#[tactic(auto, unfolding(crate::specs::RowLine::row_character, basis::specs::Tests::pick, crate::specs::RowLine::with_field))]
fn take_field(r: Rows, f: Field) -> Rows
    ensures { rows_of result ≡ row_character (rows_of r) (field_of f) }
{
    match f.ended {
        Some(_) => take_row(r, f),
        None => Rows { field: f, ..r },
    }
}

// One character more of the text.
#[tactic(auto, unfolding(crate::specs::RowLine::rows_fed, basis::specs::Tests::pick))]
pub fn feed_rows(r: Rows, b: u8) -> Rows
    ensures { rows_of result ≡ rows_fed (rows_of r) b }
{
    if r.fault.is_some() {
        return r;
    }
    if r.done {
        return refuse(r, Refusal::Extra, r.field.at);
    }
    take_field(r, feed(r.field, b))
}

// The characters of a part of the text.
#[tactic(auto, using(crate::proofs::LineLaws::rows_next, crate::proofs::LineLaws::rows_end))]
pub fn read_rows(mut r: Rows, part: &[u8]) -> Rows
    ensures { rows_of result ≡ rows_read (rows_of r) part.now }
{
    for b in part {
        r = feed_rows(r, *b);
    }
    r
}

// The place of the field that the text ends in.
#[tactic(auto, unfolding(crate::specs::RowLine::unended, basis::specs::Tests::pick))]
fn open_place(f: Field) -> u64
    ensures { result ≡ unended (field_of f) }
{
    match f.ended {
        None => f.start,
        Some(_) => f.at,
    }
}

// The end of the text.
#[tactic(auto, unfolding(crate::specs::RowLine::rows_closed, basis::specs::Tests::pick))]
pub fn close_rows(r: Rows) -> Rows
    ensures { rows_of result ≡ rows_closed (rows_of r) }
{
    if r.fault.is_some() || r.done {
        return r;
    }
    refuse(r, Refusal::EndsEarly, open_place(r.field))
}
