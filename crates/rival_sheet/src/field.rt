// A field, character by character. A CR waits for the next character: with LF it ends the field, with any other it was part of it.
use basis::Refusal;

const COMMA: u8 = 44;

const CR: u8 = 13;

const LF: u8 = 10;

const ZERO: u8 = 48;

// The field so far: its start, what its digits are worth (65,536 for more; none where it has no character) unless it is not a number,
// and whether a CR waits.
#[derive(Clone, Copy, Debug, PartialEq, Eq)]
pub struct Field {
    pub start: usize,
    number: Result<Option<u32>, Refusal>,
    waits: bool,
}

fn larger(value: u32, digit: u8) -> u32 {
    (value % 65537 * 10 + digit as u32).min(65536)
}

// With one more character: each is a digit, and no zero stands before one.
fn with(number: Option<u32>, b: u8) -> Result<Option<u32>, Refusal> {
    let digit = b.wrapping_sub(ZERO);
    if digit >= 10 || number == Some(0) {
        return Err(Refusal::NotShortest);
    }
    Ok(Some(larger(number.unwrap_or(0), digit)))
}

impl Field {
    pub fn new(start: usize) -> Field {
        Field {
            start,
            number: Ok(None),
            waits: false,
        }
    }

    fn with(self, b: u8) -> Field {
        Field {
            start: self.start,
            number: self.number.and_then(|number| with(number, b)),
            waits: false,
        }
    }

    // With the CR that waits.
    fn settled(self) -> Field {
        if self.waits { self.with(CR) } else { self }
    }

    pub fn is_crlf(self, b: u8) -> bool {
        self.waits && b == LF
    }

    pub fn ends(self, b: u8) -> bool {
        b == COMMA || self.is_crlf(b)
    }

    // The field with a character that does not end it.
    pub fn heard(self, b: u8) -> Field {
        let mut field = self.settled();
        if b == CR {
            field.waits = true;
            return field;
        }
        field.with(b)
    }

    // The field that a character ends.
    pub fn ended(self, b: u8) -> Field {
        if b == COMMA { self.settled() } else { self }
    }

    // The number of a field that has an end.
    pub fn value(self) -> Result<u16, Refusal> {
        let value = self.number?.ok_or(Refusal::EndsEarly)?;
        u16::try_from(value).map_err(|_| Refusal::TooLarge)
    }
}
