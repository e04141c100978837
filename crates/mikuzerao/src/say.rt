// Writing: texts to standard output, why not to standard error, and what ends a call before its end.
ghost use Rattle.std.specs.Prelude.{◌≡◌};
ghost use Rattle.mikuzerao.specs.Statuses.{status as status-of};

use std::fmt::Display;
use std::io;
use std::io::{Error, Write};

// What ends a call before its end, and has been said: output that cannot be written, a refusal, or wrong use.
#[derive(Clone, Copy, Debug, PartialEq, Eq)]
pub enum Stop {
    Unwritten,
    Refused,
    Wrong,
}

// The status that the program ends with; output that nobody takes does not change that of a call that did all it could.
impl From<Stop> for u8 {
    ghost from_gives = { λ stop n. n ≡ status-of stop };

    fn from(stop: Stop) -> u8 {
        match stop {
            Stop::Unwritten => 0,
            Stop::Refused => 1,
            Stop::Wrong => 2,
        }
    }
}

// Where a text goes.
#[derive(Clone, Copy, Debug, PartialEq, Eq)]
pub enum Stream {
    Output,
    Complaints,
}

fn unwritten(rt: &impl Eprint, error: Error) -> Stop {
    let _ = eprintln!(rt; "mikuzerao: writing: {error}");
    Stop::Unwritten
}

// Writes bytes to standard output, or says why it could not; after that nothing more may be written.
pub fn write(rt: &(impl Print + Eprint), bytes: &[u8]) -> Result<(), Stop> {
    match io::writer(rt).write_all(bytes) {
        Ok(()) => Ok(()),
        Err(error) => Err(unwritten(rt, error)),
    }
}

// Writes a text to standard output, or says why it could not; the call goes on.
pub fn say(rt: &(impl Print + Eprint), text: impl Display + Drop) {
    if let Err(error) = rt.print(text) {
        unwritten(rt, error);
    }
}

// Writes a text to standard error; where that cannot be done, nobody is left to tell.
pub fn complain(rt: &impl Eprint, text: impl Display + Drop) {
    let _ = rt.eprint(text);
}

pub fn say_to(rt: &(impl Print + Eprint), to: Stream, text: impl Display + Drop) {
    match to {
        Stream::Output => say(rt, text),
        Stream::Complaints => complain(rt, text),
    }
}

// Wrong use, with what is wrong in one line.
pub fn wrong(rt: &impl Eprint, what: &str) -> Stop {
    let _ = eprintln!(rt; "mikuzerao: {what} (help says more)");
    Stop::Wrong
}

// A file that cannot be read, with its name and why, where that is known.
pub fn unread(rt: &impl Eprint, name: &str, why: Option<Error>) -> Stop {
    let _ = match why {
        Some(error) => eprintln!(rt; "mikuzerao: {name}: {error}"),
        None => eprintln!(rt; "mikuzerao: {name}: cannot be read"),
    };
    Stop::Wrong
}
