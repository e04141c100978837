// The options behind a call with steps.
ghost use Rattle.std.specs.Prelude.{◌<◌, ◌≤◌};

use super::call::Call;
use super::say::{Stop, wrong};
use super::words::{count_words, is_word, number_word, read_word, signed_word};
use std::env::Env;

// The words that name the files of events and of the frame, the domain that it is shown to, whether the state is asked for, and the
// actuator's numbers.
#[derive(Clone, Copy, Debug, PartialEq, Eq)]
pub struct Options {
    pub events: Option<usize>,
    pub frame: Option<usize>,
    pub shown: Option<u64>,
    pub state: bool,
    pub rate: u64,
    pub start: i32,
    pub thread: u64,
}

// An option that wants a word behind it.
#[derive(Clone, Copy, Debug, PartialEq, Eq)]
enum Name {
    Events,
    Frame,
    Shown,
    Rate,
    Start,
    Thread,
}

// The option of a call that a word names.
fn name_of(call: Call, word: &[u8]) -> Option<Name> {
    match (call, word) {
        (_, b"events") => Some(Name::Events),
        (_, b"frame") => Some(Name::Frame),
        (Call::Run, b"shown") => Some(Name::Shown),
        (Call::Drive, b"rate") => Some(Name::Rate),
        (Call::Drive, b"start") => Some(Name::Start),
        (Call::Drive, b"thread") => Some(Name::Thread),
        _ => None,
    }
}

// A value that must be there.
fn wanted<T: Drop>(rt: &impl Eprint, value: Option<T>, what: &str) -> Result<T, Stop> {
    value.ok_or_else(|| wrong(rt, what))
}

// The option that word i names, with the word behind it.
fn take_named(
    rt: &(impl Env + Eprint),
    call: Call,
    i: usize,
    behind: usize,
    o: &mut Options,
) -> Result<(), Stop> {
    let name = wanted(
        rt,
        read_word(rt, i, |word| name_of(call, word)),
        "no such option",
    )?;
    match name {
        Name::Events => o.events = Some(behind),
        Name::Frame => o.frame = Some(behind),
        Name::Shown => {
            let n = number_word(rt, behind);
            o.shown = Some(wanted(rt, n, "shown wants the number of a domain")?);
        }
        Name::Rate => o.rate = wanted(rt, number_word(rt, behind), "rate wants a number")?,
        Name::Start => o.start = wanted(rt, signed_word(rt, behind), "start wants a number")?,
        Name::Thread => {
            let n = number_word(rt, behind);
            o.thread = wanted(rt, n, "thread wants the number of a thread")?;
        }
    }
    Ok(())
}

// The option that word i of so many names; the next word comes back.
fn take_option(
    rt: &(impl Env + Eprint),
    call: Call,
    i: usize,
    count: usize,
    o: &mut Options,
) -> Result<usize, Stop>
    requires { (i < count) × (count ≤ 64) }
{
    if call == Call::Run && is_word(rt, i, b"state") {
        o.state = true;
        return Ok(i + 1);
    }
    if i + 1 == count {
        return Err(wrong(rt, "an option that is not there, or nothing behind it"));
    }
    take_named(rt, call, i, i + 1, o)?;
    Ok(i + 2)
}

// The options of a call from a word on, eight at most.
pub fn take_options(rt: &(impl Env + Eprint), call: Call, from: usize) -> Result<Options, Stop> {
    let count = count_words(rt);
    let mut o = Options {
        events: None,
        frame: None,
        shown: None,
        state: false,
        rate: 1000,
        start: 0,
        thread: 0,
    };
    let mut next = from;
    for _ in 0..8u8 {
        if count <= next {
            return Ok(o);
        }
        next = take_option(rt, call, next, count, &mut o)?;
    }
    if next < count {
        return Err(wrong(rt, "too many words"));
    }
    Ok(o)
}
