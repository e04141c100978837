// A number in groups of seven bits, lowest group first; never masks.
#![tactic(auto)]

ghost use Rattle.std.specs.Prelude.{◌≡◌, ◌<◌, drop};
ghost use Rattle.numeral.specs.Number.{given, third, second, number_at};
ghost use Rattle.numeral.specs.NumberRules.{Bytes};

use basis::Refusal;

// A number, and the place after it.
#[derive(Clone, Copy, Debug, PartialEq, Eq)]
pub struct Numeral {
    pub value: u16,
    pub next: usize,
}

// The third byte of a number, where the first two give v.
fn third_byte(s: &[u8], at: usize, v: u32) -> Result<Numeral, Refusal>
    requires { v < 16384 }
    ensures { given result ≡ third at v (drop at s.now) }
{
    if s.len() <= at {
        return Err(Refusal::EndsEarly);
    }
    let last = u32::from(s[at]);
    if 128 <= last {
        return Err(Refusal::TooLarge);
    }
    if last == 0 {
        return Err(Refusal::NotShortest);
    }
    let w = v + 16384 * last;
    if w <= 65535 {
        return Ok(Numeral {
            value: w as u16,
            next: at + 1,
        });
    }
    Err(Refusal::TooLarge)
}

// The second byte of a number, where the first gives v.
fn second_byte(s: &[u8], at: usize, v: u32) -> Result<Numeral, Refusal>
    requires { v < 128 }
    ensures { given result ≡ second at v (drop at s.now) }
{
    if s.len() <= at {
        return Err(Refusal::EndsEarly);
    }
    let b = u32::from(s[at]);
    if b == 0 {
        return Err(Refusal::NotShortest);
    }
    if b < 128 {
        return Ok(Numeral {
            value: (v + 128 * b) as u16,
            next: at + 1,
        });
    }
    third_byte(s, at + 1, v + 128 * (b - 128))
}

// The number that starts at a place.
pub fn read_number(s: &[u8], at: usize) -> Result<Numeral, Refusal>
    ensures { (given result ≡ number_at s.now at) × Bytes s.now }
{
    if s.len() <= at {
        return Err(Refusal::EndsEarly);
    }
    let b = u32::from(s[at]);
    if b < 128 {
        return Ok(Numeral {
            value: b as u16,
            next: at + 1,
        });
    }
    second_byte(s, at + 1, b - 128)
}
