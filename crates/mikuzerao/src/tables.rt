// A table from a file, in bytes or in the comma form.
use super::files::{Source, open_named, unread_word};
use super::long::judge_long;
use super::refusal::refuse_table;
use super::say::{Stop, Stream};
use basis::Refusal;
use input::fill;
use reader::Fault;
use sentence::Form;
use std::io::Read;
use std::rt::Runtime;
use table::Table;

// What was read of a table's file, as much as a buffer holds, and the file itself, which may go on.
#[derive(Drop)]
pub struct Loaded<'a, S> {
    pub from: S,
    pub text: &'a [u8],
}

// Reads the file that word i names.
pub fn load<'a, R: Runtime>(
    rt: &R,
    i: usize,
    text: &'a mut [u8],
) -> Result<Loaded<'a, Source<R::File, R::Reader>>, Stop> {
    let mut from = open_named(rt, i)?;
    let f = fill(&mut from, text);
    if !f.reach.is_whole() {
        return Err(unread_word(rt, i, f.reach.error()));
    }
    Ok(Loaded {
        from,
        text: &text[..f.count],
    })
}

// A file whose first byte is 32 or more is in the comma form.
pub fn form_of(text: &[u8]) -> Form {
    match text.first() {
        Some(b) if 32 <= *b => Form::Sheet,
        _ => Form::Bytes,
    }
}

// A refusal of the first 65,536 characters is that of all of them, unless a field runs over their end.
fn lengthen<S: Read>(from: &mut S, text: &[u8], fault: Fault) -> Fault {
    if text.len() < 65536 || fault.why != Refusal::EndsEarly {
        return fault;
    }
    Fault {
        why: judge_long(from, text, fault.place),
        place: fault.place,
    }
}

// The table of a file, or its refusal.
pub fn judge<S: Read>(from: &mut S, text: &[u8]) -> Result<Table, Fault> {
    match form_of(text) {
        Form::Bytes => codec::read(text),
        Form::Sheet => match sheet::read(text) {
            Ok(t) => Ok(t),
            Err(fault) => Err(lengthen(from, text, fault)),
        },
    }
}

// A legal table, what is opened beside it, and the table's file, which stays open while the call goes on: where there is no standard
// input, the file has its number, and no steps follow.
#[derive(Drop)]
pub struct Given<T, S> {
    pub table: Table,
    pub beside: T,
    pub file: S,
}

// The table that word 2 names, and what is opened beside it, once the table is read and before it is refused.
pub fn read_table<R: Runtime, T: Drop, F: FnOnce() -> Result<T, Stop>>(
    rt: &R,
    to: Stream,
    beside: F,
) -> Result<Given<T, Source<R::File, R::Reader>>, Stop>
    requires { F.IsAlwaysCallable beside }
{
    let mut text = [0u8; 65536];
    let Loaded { mut from, text } = load(rt, 2, &mut text)?;
    let judged = judge(&mut from, text);
    let opened = beside()?;
    match judged {
        Ok(table) => Ok(Given {
            table,
            beside: opened,
            file: from,
        }),
        Err(fault) => Err(refuse_table(rt, to, text, fault)),
    }
}
