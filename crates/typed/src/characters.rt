// A field, character by character.
ghost use Rattle.std.specs.Prelude.{◌≡◌, drop, eqb};
ghost use Rattle.typed.specs.Fields.{field_of, end_of, onward as the-next, grown as the-grown, blank as the-blank, text_start, begun, moved, taken, settled, held, ended_by, fed, closed, read_on, reading_of};

use super::{End, Field, Reading, Size};

// A field with no character yet, whose first has this place.
pub fn blank(at: u64) -> Field
    ensures { field_of result ≡ the-blank at }
{
    Field {
        start: at,
        at,
        size: Size::Empty,
        value: 0,
        strange: false,
        cr: false,
        ended: None,
    }
}

// The start of a text.
pub fn new_text() -> Field
    ensures { field_of result ≡ text_start }
{
    Field {
        ended: Some(End::Line),
        ..blank(0)
    }
}

// The place behind another.
#[tactic(auto, unfolding(crate::specs::Fields::onward, basis::specs::Tests::pick))]
fn onward(at: u64) -> u64
    ensures { result ≡ the-next at }
{
    if at < 1000000000000000000 {
        return at + 1;
    }
    at
}

// The value of the digits, one character further.
#[tactic(auto, unfolding(crate::specs::Fields::grown, crate::specs::Fields::is_digit, basis::specs::Tests::pick))]
fn grown(v: u64, b: u8) -> u64
    ensures { result ≡ the-grown v b }
{
    if !b.is_ascii_digit() {
        return v;
    }
    if v < 100000000000000000 {
        return v * 10 + (b - b'0') as u64;
    }
    1000000000000000000
}

// The field that the next character is of.
#[tactic(auto, unfolding(crate::specs::Fields::begun, basis::specs::Tests::pick))]
fn begin(f: Field) -> Field
    ensures { field_of result ≡ begun (field_of f) }
{
    match f.ended {
        None => f,
        Some(_) => blank(f.at),
    }
}

#[tactic(auto, unfolding(crate::specs::Fields::moved))]
fn move_on(f: Field) -> Field
    ensures { field_of result ≡ moved (field_of f) }
{
    Field {
        at: onward(f.at),
        ..f
    }
}

// One character more of the field.
#[tactic(auto, unfolding(crate::specs::Fields::taken, crate::specs::Fields::is_strange, crate::specs::Fields::is_digit, basis::specs::Tests::pick))]
pub fn take(f: Field, b: u8) -> Field
    ensures { field_of result ≡ taken (field_of f) b }
{
    let fits = b.is_ascii_digit() || b == b'-' && f.size == Size::Empty;
    Field {
        size: match f.size {
            Size::Empty => Size::One(b),
            Size::One(first) | Size::More(first) => Size::More(first),
        },
        value: grown(f.value, b),
        strange: f.strange || !fits,
        cr: false,
        ..f
    }
}

// A CR that no LF followed was a character of the field.
#[tactic(auto, unfolding(crate::specs::Fields::settled, basis::specs::Tests::pick))]
fn settle(f: Field) -> Field
    ensures { field_of result ≡ settled (field_of f) }
{
    if f.cr {
        return take(f, b'\r');
    }
    f
}

#[tactic(auto, unfolding(crate::specs::Fields::held))]
fn hold(f: Field) -> Field
    ensures { field_of result ≡ held (field_of f) }
{
    Field { cr: true, ..f }
}

#[tactic(auto, unfolding(crate::specs::Fields::ended_by))]
fn end(f: Field, by: End) -> Field
    ensures { field_of result ≡ ended_by (end_of by) (field_of f) }
{
    Field {
        cr: false,
        ended: Some(by),
        ..f
    }
}

// One character more of the text.
#[tactic(auto, unfolding(crate::specs::Fields::fed, crate::specs::Fields::character, basis::specs::Tests::pick))]
pub fn feed(f: Field, b: u8) -> Field
    ensures { field_of result ≡ fed (field_of f) b }
{
    let g = move_on(begin(f));
    match b {
        b'\n' => end(g, End::Line),
        b'\r' => hold(settle(g)),
        b',' => end(settle(g), End::Comma),
        _ => take(settle(g), b),
    }
}

// Whether a line's end ended the field.
pub fn ends_line(f: Field) -> bool
    ensures { result ≡ eqb (field_of f).ended 2 }
{
    matches!(f.ended, Some(End::Line))
}

// The end of the text.
#[tactic(auto, unfolding(crate::specs::Fields::closed, basis::specs::Tests::pick))]
pub fn close(f: Field) -> Field
    ensures { field_of result ≡ closed (field_of f) }
{
    if ends_line(f) {
        return f;
    }
    end(settle(begin(f)), End::Line)
}

// The characters of a part of the text from a place on, until a field ends or the part does.
#[tactic(auto, using(crate::proofs::FieldLaws::read_more, crate::proofs::FieldLaws::read_stop, crate::proofs::FieldLaws::read_end))]
pub fn read_field(f: Field, part: &[u8], from: usize) -> Reading
    ensures { reading_of result ≡ read_on (field_of f) (drop from part.now) from }
{
    let mut field = f;
    for k in from..part.len() {
        field = feed(field, part[k]);
        if field.ended.is_some() {
            return Reading { field, next: k + 1 };
        }
    }
    Reading {
        field,
        next: from.max(part.len()),
    }
}
