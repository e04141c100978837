// A refusal: its line, and beside it on standard error one sentence in words.
use super::say::{Stop, Stream, complain, say_to};
use super::tables::form_of;
use basis::Refusal;
use reader::Fault;
use sentence::{explain, find};
use std::str;

// The sentence that a function puts at the front of a lent buffer, as long as it says.
fn say_sentence<F: FnOnce(&mut [u8]) -> usize>(rt: &impl Eprint, sentence: F)
    requires { F.IsAlwaysCallable sentence }
{
    let mut out = [0u8; 512];
    let n = sentence(&mut out);
    if let Some(bytes) = out.get(..n) {
        if let Ok(words) = str::from_utf8(bytes) {
            complain(rt, words);
        }
    }
}

// A line with the refusal's number, and with its place or clock where it has one, and its sentence.
pub fn refuse<F: FnOnce(&mut [u8]) -> usize>(
    rt: &(impl Print + Eprint),
    to: Stream,
    why: Refusal,
    place: Option<u64>,
    sentence: F,
) -> Stop
    requires { F.IsAlwaysCallable sentence }
{
    let number = u8::from(why);
    match (why, place) {
        (Refusal::Intransitive { a, b, c }, Some(place)) => {
            say_to(
                rt,
                to,
                format_args!("refused {number} {place} {a} {b} {c}\n"),
            );
        }
        (_, Some(place)) => say_to(rt, to, format_args!("refused {number} {place}\n")),
        (_, None) => say_to(rt, to, format_args!("refused {number}\n")),
    }
    say_sentence(rt, sentence);
    Stop::Refused
}

// A refused table, with the text that it was read from.
pub fn refuse_table(rt: &(impl Print + Eprint), to: Stream, text: &[u8], fault: Fault) -> Stop {
    let Fault { why, place } = fault;
    let form = form_of(text);
    refuse(rt, to, why, Some(place as u64), |out| {
        explain(out, Some(why), form, find(text, form, place))
    })
}
