// The words behind the program's name.
ghost use Rattle.std.specs.Prelude.{◌<◌, ◌≤◌};

use super::say::{Stop, wrong};
use std::env::{Env, FillError};
use typed::{number_of, signed_of};

// Whether there is a word i. Words are asked for by their place: `env::args` refuses one that is not UTF-8, and takes memory for all.
fn has_word(rt: &impl Env, i: usize) -> bool {
    let mut nothing = [0u8; 1];
    !matches!(rt.arg(i, &mut nothing), Err(FillError::NotPresent))
}

// How many words there are, with the program's name; 64 counts for more, for no call takes as many.
pub fn count_words(rt: &impl Env) -> usize
    ensures { result ≤ 64 }
{
    (0..64usize).find(|i| !has_word(rt, *i)).unwrap_or(64)
}

// What word i is taken for; one that is longer than any name or number is nothing.
pub fn read_word<T, F: FnOnce(&[u8]) -> Option<T>>(rt: &impl Env, i: usize, read: F) -> Option<T>
    requires { F.IsAlwaysCallable read }
{
    let mut word = [0u8; 64];
    match rt.arg(i, &mut word) {
        Ok(n) => read(&word[..n]),
        Err(_) => None,
    }
}

// Whether word i is this one.
pub fn is_word(rt: &impl Env, i: usize, name: &[u8]) -> bool {
    read_word(rt, i, |word| (word == name).then_some(())).is_some()
}

// Word i as a number.
pub fn number_word(rt: &impl Env, i: usize) -> Option<u64> {
    read_word(rt, i, |word| number_of(word))
}

// Word i as a number with or without a sign.
pub fn signed_word(rt: &impl Env, i: usize) -> Option<i32> {
    read_word(rt, i, |word| signed_of(word))
}

// Just so many words stand behind the program's name.
pub fn want_words(rt: &(impl Env + Eprint), n: usize) -> Result<(), Stop>
    requires { n < 64 }
{
    if count_words(rt) == n + 1 {
        return Ok(());
    }
    Err(wrong(rt, "too few or too many words"))
}

// At least so many, of which each but the first is named by what is wanted.
pub fn want_more(rt: &(impl Env + Eprint), n: usize, what: &str) -> Result<(), Stop>
    requires { n < 64 }
{
    if n < count_words(rt) {
        return Ok(());
    }
    Err(wrong(rt, what))
}
