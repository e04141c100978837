// clean: the cleanings that a trace asks for, a part of the trace at a time.
ghost use Rattle.std.specs.Prelude.{◌≤◌, ◌<◌, length};

use super::files::{input_once, open_named, unread_word};
use super::page::Page;
use super::parts::read_parts;
use super::refusal::refuse;
use super::say::{Stop, Stream, say, write};
use super::tables::{Given, read_table};
use super::words::want_words;
use basis::Refusal;
use cleaning::{Cleaning, last_runner};
use listed::make_list;
use sentence::explain_byte;
use std::fmt::Write;
use std::rt::Runtime;
use table::Table;

// The trace so far: how many bytes it had, the byte of who ran last, as `last_runner` gives it (255 nobody), and how many cleanings there
// were.
#[derive(Clone, Copy, Debug, PartialEq, Eq)]
struct So {
    steps: u64,
    last: u8,
    cleanings: u64,
}

// Whether a byte names a thread of so many, or is 255.
fn is_known(count: u8, b: u8) -> bool {
    b < count || b == 255 || 32 <= b && b - 32 < count
}

// The lines of cleanings in a piece whose first byte is who ran last before its first step.
fn put_cleanings(page: &mut Page, first: u64, list: &[Cleaning]) {
    for c in list {
        let step = first.saturating_add(c.step.saturating_sub(1));
        let _ = write!(page, "{step} {} {}\n", c.before, c.after);
    }
}

// 21, at a byte that names no thread.
fn refuse_byte(rt: &(impl Print + Eprint), t: &Table, step: u64, b: u8) -> Stop {
    refuse(rt, Stream::Output, Refusal::TraceByte, None, |out| {
        explain_byte(out, step, b, t.count)
    })
}

// One piece more, of 63 bytes at most: its cleanings are printed. A byte that names no thread ends the trace.
fn take_piece(
    rt: &(impl Print + Eprint),
    t: &Table,
    so: So,
    piece: &[u8],
    page: &mut Page,
) -> Result<So, Stop> {
    let known = piece
        .iter()
        .position(|b| !is_known(t.count, *b))
        .unwrap_or(piece.len())
        .min(63);
    let mut bytes = [so.last; 64];
    bytes[1..1 + known].copy_from_slice(&piece[..known]);
    let bytes = &bytes[..1 + known];
    let r = make_list(*t, bytes);
    let found = r.list.get(..r.outcome.unwrap_or(0)).unwrap_or(&[]);
    page.clear();
    put_cleanings(page, so.steps, found);
    let written = write(rt, page.text());
    let steps = so.steps.saturating_add(known as u64);
    if let Some(b) = piece.get(known) {
        return Err(refuse_byte(rt, t, steps, *b));
    }
    written?;
    Ok(So {
        steps,
        last: last_runner(*t, bytes),
        cleanings: so.cleanings.saturating_add(found.len() as u64),
    })
}

// All pieces of a part.
fn take_part(
    rt: &(impl Print + Eprint),
    t: &Table,
    mut so: So,
    part: &[u8],
    page: &mut Page,
) -> Result<So, Stop> {
    for piece in part.chunks(63) {
        so = take_piece(rt, t, so, piece, page)?;
    }
    Ok(so)
}

pub fn clean(rt: &impl Runtime) -> Result<(), Stop> {
    want_words(rt, 3)?;
    input_once(rt, 4, &[])?;
    let Given {
        table: t,
        beside: mut trace,
        file: _file,
    } = read_table(rt, Stream::Output, || open_named(rt, 3))?;
    let mut page = Page::new();
    let mut so = So {
        steps: 0,
        last: 255,
        cleanings: 0,
    };
    let read = read_parts(&mut trace, |part| -> Result<(), Stop> {
        so = take_part(rt, &t, so, part, &mut page)?;
        Ok(())
    });
    match read {
        Ok(end) => end?,
        Err(error) => return Err(unread_word(rt, 3, Some(error))),
    }
    say(rt, format_args!("cleanings {}\n", so.cleanings));
    Ok(())
}
