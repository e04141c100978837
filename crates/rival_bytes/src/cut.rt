// The bytes cut into numbers.
use basis::Refusal;

// A number and how many bytes it takes.
#[derive(Clone, Copy, Debug, PartialEq, Eq)]
struct Number {
    value: u16,
    size: usize,
}

// The place of a number, and its value or why it is refused.
#[derive(Clone, Copy, Debug, PartialEq, Eq)]
pub struct Piece {
    pub place: usize,
    pub value: Result<u16, Refusal>,
}

// More numbers than any table has.
pub type Pieces = [Piece; 288];

// What the seven bits of byte k of a number count for.
fn group(b: u8, k: usize) -> u32 {
    let bits = (b % 128) as u32;
    match k {
        0 => bits,
        1 => bits * 128,
        _ => bits * 16384,
    }
}

// A number whose last byte is byte k.
fn ended(value: u32, k: usize, last: u8) -> Result<Number, Refusal> {
    if k != 0 && last == 0 {
        return Err(Refusal::NotShortest);
    }
    let value = u16::try_from(value).map_err(|_| Refusal::TooLarge)?;
    Ok(Number {
        value,
        size: k.wrapping_add(1),
    })
}

// The number that bytes begin with.
fn number_in(s: &[u8]) -> Result<Number, Refusal> {
    let mut value: u32 = 0;
    for (k, b) in s.iter().take(3).enumerate() {
        value = value.wrapping_add(group(*b, k));
        if *b < 128 {
            return ended(value, k, *b);
        }
    }
    Err(if s.len() < 3 {
        Refusal::EndsEarly
    } else {
        Refusal::TooLarge
    })
}

// The numbers from the first on. From one that is refused on each is that one.
pub fn cut(s: &[u8]) -> Pieces {
    let none = Piece {
        place: 0,
        value: Ok(0),
    };
    let mut pieces = [none; 288];
    let mut place = 0;
    for piece in &mut pieces {
        let number = number_in(&s[s.len().min(place)..]);
        *piece = Piece {
            place,
            value: number.map(|n| n.value),
        };
        place = place.wrapping_add(number.map_or(0, |n| n.size));
    }
    pieces
}
