// A field: where it ends, and the number that it is.
ghost use Rattle.std.specs.Prelude.{◌≡◌, true, ◌+◌, ◌<◌, ◌≤◌, length, drop, MatchResult};
ghost use Rattle.std.specs.List.{list_all};
ghost use Rattle.std.specs.Char.{is_ascii_digit};
ghost use Rattle.basis.specs.Refusals.{number};
ghost use Rattle.numeral.specs.Number.{given};
ghost use Rattle.sheet.specs.Field.{field_ends as ends_there, field, all_digits, zero_first, value_from, judged_digits, field_at, Inside};

use basis::Refusal;
use numeral::Numeral;

// Whether a field ends where this text starts.
#[tactic(auto, unfolding(crate::specs::Field::field_ends))]
fn field_ends(rest: &[u8]) -> bool
    ensures { result ≡ ends_there rest.now }
{
    matches!(rest, [] | [b',', ..] | [b'\r', b'\n', ..])
}

// The end of the field that starts at a place.
fn field_end(s: &[u8], at: usize) -> usize
    ensures { result ≡ at + length (field (drop at s.now)) }
{
    for end in at..s.len() {
        if field_ends(&s[end..]) {
            return end;
        }
    }
    at.max(s.len())
}

// Whether each character is a digit.
fn is_digits(f: &[u8]) -> bool
    ensures { result ≡ list_all is_ascii_digit f.now }
{
    f.iter().all(|b| b.is_ascii_digit())
}

// Whether the first character is a zero and another follows.
fn is_padded(f: &[u8]) -> bool
    ensures { result ≡ zero_first f.now }
{
    matches!(f, [b'0', _, ..])
}

// The value of digits, however many.
fn value_of(f: &[u8]) -> Result<u16, Refusal>
    requires { all_digits f.now ≡ true }
    ensures { MatchResult result (λ v. (v ≡ value_from 0 f.now) × (v ≤ 65535)) (λ why. (number why ≡ 3) × (65535 < value_from 0 f.now)) }
{
    let mut v = 0u32;
    for b in f {
        v = v * 10 + (*b - b'0') as u32;
        if 65535 < v {
            return Err(Refusal::TooLarge);
        }
    }
    Ok(v as u16)
}

// The number of a field that is not empty and ends at a place.
fn number_of(f: &[u8], end: usize) -> Result<Numeral, Refusal>
    ensures { given result ≡ judged_digits end f.now }
{
    if is_padded(f) || !is_digits(f) {
        return Err(Refusal::NotShortest);
    }
    let value = value_of(f)?;
    Ok(Numeral { value, next: end })
}

// The field that starts at a place.
pub fn read_field(s: &[u8], at: usize) -> Result<Numeral, Refusal>
    ensures { (given result ≡ field_at s.now at) × Inside (given result) (length s.now) }
{
    let end = field_end(s, at);
    if end == at || s.len() <= end {
        return Err(Refusal::EndsEarly);
    }
    number_of(&s[at..end], end)
}
