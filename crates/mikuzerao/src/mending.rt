// mend: one line of rows, and what its smallest transitive relation adds.
use super::parts::read_parts;
use super::refusal::refuse;
use super::say::{Stop, Stream, say};
use super::tables::{Loaded, load};
use super::words::want_words;
use basis::Refusal;
use mend::{Unmendable, mend};
use sentence::{Form, explain, row_cause};
use std::io::Read;
use std::rt::Runtime;
use typed::{Fault, Rows, close_rows, new_rows, read_rows};

// The rows of a text, and those that its source gives behind it.
fn read_all<S: Read>(from: &mut S, text: &[u8]) -> Rows {
    let mut r = read_rows(new_rows(), text);
    let _ = read_parts(from, |part| -> Result<(), Stop> {
        r = read_rows(r, part);
        Ok(())
    });
    close_rows(r)
}

// A refusal with its place, and of row i, as it stands in the text, what is wrong.
fn refuse_row(
    rt: &(impl Print + Eprint),
    text: &[u8],
    fault: Fault,
    i: u8,
    value: Option<u16>,
    rows: Option<u8>,
) -> Stop {
    let Fault { why, place } = fault;
    let at = place.min(65536) as usize;
    refuse(rt, Stream::Output, why, Some(place), |out| {
        explain(
            out,
            Some(why),
            Form::Sheet,
            row_cause(text, at, i, value, rows),
        )
    })
}

// The rows mended, and the pairs that were added.
fn say_mended(rt: &(impl Print + Eprint), rows: &[u16], pairs: &[u8]) {
    for (i, row) in rows.iter().enumerate() {
        let end = if i + 1 < rows.len() { "," } else { "\n" };
        say(rt, format_args!("{row}{end}"));
    }
    say(rt, format_args!("added {}\n", pairs.len()));
    for p in pairs {
        say(rt, format_args!("{} {}\n", p / 16, p % 16));
    }
}

// The line is whole: its rows are mended.
fn answer(rt: &(impl Print + Eprint), text: &[u8], r: &Rows) -> Result<(), Stop> {
    let mut pairs = [0u8; 256];
    let n = r.count as usize;
    let given = r.rows;
    let starts = r.starts;
    let Some(rows) = given.get(..n) else {
        let fault = Fault {
            why: Refusal::Count,
            place: starts[16],
        };
        return Err(refuse_row(rt, text, fault, 16, None, None));
    };
    match mend(rows, &mut pairs) {
        Ok(m) => {
            let mended = m.rows;
            if let (Some(rows), Some(pairs)) = (mended.get(..n), pairs.get(..m.added)) {
                say_mended(rt, rows, pairs);
            }
            Ok(())
        }
        Err(Unmendable::BadRow(i)) if i < 16 => {
            let fault = Fault {
                why: Refusal::Row,
                place: starts[i as usize],
            };
            let value = given[i as usize];
            Err(refuse_row(rt, text, fault, i, Some(value), Some(r.count)))
        }
        Err(_) => Ok(()),
    }
}

pub fn mend_rows(rt: &impl Runtime) -> Result<(), Stop> {
    want_words(rt, 2)?;
    let mut text = [0u8; 65536];
    let Loaded { mut from, text } = load(rt, 2, &mut text)?;
    let r = read_all(&mut from, text);
    match r.fault {
        Some(fault) => Err(refuse_row(rt, text, fault, r.count, None, None)),
        None => answer(rt, text, &r),
    }
}
