// A field of the comma form that runs over the end of the buffer: it is judged character by character, however long it is.
use super::parts::read_parts;
use basis::Refusal;
use std::io::Read;

// What the characters of a field are: none yet, digits with no zero first, or no number in its shortest form.
#[derive(Clone, Copy, Debug, PartialEq, Eq)]
enum Kind {
    Empty,
    Digits,
    Spoilt,
}

// Why the number of a whole field is refused that is too long for any.
fn refusal_of(kind: Kind) -> Refusal {
    match kind {
        Kind::Empty | Kind::Digits => Refusal::TooLarge,
        Kind::Spoilt => Refusal::NotShortest,
    }
}

// A field so far, and whether a CR stands behind it that may be the first half of its end.
#[derive(Clone, Copy, Debug, PartialEq, Eq)]
struct Field {
    kind: Kind,
    cr: bool,
}

// One character of the field itself.
fn grown(kind: Kind, b: u8) -> Kind {
    match kind {
        Kind::Empty if b.is_ascii_digit() && b != b'0' => Kind::Digits,
        Kind::Digits if b.is_ascii_digit() => Kind::Digits,
        _ => Kind::Spoilt,
    }
}

// One character more: a comma or a CRLF ends the field, and a CR without LF is a character of it.
fn feed(f: Field, b: u8) -> Result<Field, Kind> {
    if f.cr && b == b'\n' {
        return Err(f.kind);
    }
    let kind = if f.cr { grown(f.kind, b'\r') } else { f.kind };
    match b {
        b',' => Err(kind),
        b'\r' => Ok(Field { kind, cr: true }),
        _ => Ok(Field {
            kind: grown(kind, b),
            cr: false,
        }),
    }
}

// The field behind a part of it, or what the whole field is that ends there.
fn feed_all(mut f: Field, part: &[u8]) -> Result<Field, Kind> {
    for b in part {
        f = feed(f, *b)?;
    }
    Ok(f)
}

// What the number is refused with of the field that starts at a place and runs over the end of the text, which goes on in the file:
// 1 where the file ends in it, else 2 or, so long, 3. A field that ends before is an empty one, or its wrong end.
pub fn judge_long<S: Read>(from: &mut S, text: &[u8], place: usize) -> Refusal {
    let Some(front) = text.get(place..) else {
        return Refusal::EndsEarly;
    };
    let Ok(mut f) = feed_all(
        Field {
            kind: Kind::Empty,
            cr: false,
        },
        front,
    ) else {
        return Refusal::EndsEarly;
    };
    let read = read_parts(from, |part| -> Result<(), Kind> {
        f = feed_all(f, part)?;
        Ok(())
    });
    match read {
        Ok(Err(kind)) => refusal_of(kind),
        _ => Refusal::EndsEarly,
    }
}
