// The number that a field or a word is.
ghost use Rattle.std.specs.Prelude.{◌≡◌};
ghost use Rattle.typed.specs.Fields.{field_of, blank as the-blank};
ghost use Rattle.typed.specs.Numbers.{is_plain as a-plain, is_signed as a_signed, minus, signed_of as signed-given, argument_of, signed, command, spelt, argument, signed_word};

use super::characters::{blank, ends_line, take};
use super::{Field, Size};

// Whether a minus sign stands first.
fn is_negative(f: Field) -> bool
    ensures { result ≡ minus (field_of f) }
{
    matches!(f.size, Size::One(b'-') | Size::More(b'-'))
}

// Whether a field is digits only.
#[tactic(auto, unfolding(crate::specs::Numbers::is_plain))]
pub fn is_plain(f: Field) -> bool
    ensures { result ≡ a-plain (field_of f) }
{
    !f.strange && f.size != Size::Empty && !is_negative(f)
}

// Whether it is digits with or without a minus sign.
#[tactic(auto, unfolding(crate::specs::Numbers::is_signed, basis::specs::Tests::pick))]
fn is_signed(f: Field) -> bool
    ensures { result ≡ a_signed (field_of f) }
{
    !f.strange && !matches!(f.size, Size::Empty | Size::One(b'-'))
}

// A field's value with its sign.
#[tactic(auto, unfolding(crate::specs::Numbers::signed, crate::specs::Numbers::signed_value, basis::specs::Tests::pick))]
fn sign(f: Field) -> Option<i32>
    ensures { signed-given result ≡ signed (field_of f) }
{
    if !is_signed(f) {
        return None;
    }
    let v = f.value.min(1000000) as i32;
    Some(if is_negative(f) { -v } else { v })
}

// The number of a line that is one field.
#[tactic(auto, unfolding(crate::specs::Numbers::command, basis::specs::Tests::pick))]
pub fn command_of(f: Field) -> Option<i32>
    ensures { signed-given result ≡ command (field_of f) }
{
    if ends_line(f) {
        return sign(f);
    }
    None
}

// A word, all of which is taken as one field.
#[tactic(auto, using(crate::proofs::NumberLaws::spelt_next, crate::proofs::NumberLaws::spelt_end))]
fn spell(word: &[u8]) -> Field
    ensures { field_of result ≡ spelt (the-blank 0) word.now }
{
    let mut f = blank(0);
    for b in word {
        f = take(f, *b);
    }
    f
}

// A word as a number.
#[tactic(auto, unfolding(crate::specs::Numbers::argument, crate::specs::Numbers::plain, basis::specs::Tests::pick))]
pub fn number_of(word: &[u8]) -> Option<u64>
    ensures { argument_of result ≡ argument word.now }
{
    let f = spell(word);
    is_plain(f).then_some(f.value)
}

// A word as a number with or without a sign, from -1,000,000 to 1,000,000.
#[tactic(auto, unfolding(crate::specs::Numbers::signed_word))]
pub fn signed_of(word: &[u8]) -> Option<i32>
    ensures { signed-given result ≡ signed_word word.now }
{
    sign(spell(word))
}
