// The frame of a call: its file, and whether it passes with the table.
use super::files::open_named;
use super::parts::read_parts;
use super::refusal::refuse;
use super::say::{Stop, Stream, wrong};
use basis::Refusal;
use frame::{Frame, frame_passes};
use sentence::explain_frame;
use std::io::Read;
use std::rt::Runtime;
use table::Table;
use typed::{Windows, close_windows, new_windows, read_windows};

// All windows that a source gives.
fn read_frame<S: Read>(from: &mut S) -> Windows {
    let mut w = new_windows();
    let _ = read_parts(from, |part| -> Result<(), Stop> {
        w = read_windows(w, part);
        Ok(())
    });
    close_windows(w)
}

// The frame that a word names, of which each line must be two numbers.
fn name_frame(rt: &impl Runtime, i: usize) -> Result<Frame, Stop> {
    let mut from = open_named(rt, i)?;
    let w = read_frame(&mut from);
    if w.bad {
        return Err(wrong(rt, "a line of the frame is not two numbers"));
    }
    Ok(w.frame)
}

// The frame that an option names, where one does.
pub fn take_frame(rt: &impl Runtime, word: Option<usize>) -> Result<Option<Frame>, Stop> {
    match word {
        None => Ok(None),
        Some(i) => Ok(Some(name_frame(rt, i)?)),
    }
}

// A frame that does not pass with the table: 19.
pub fn check_frame(
    rt: &(impl Print + Eprint),
    to: Stream,
    t: &Table,
    frame: Option<Frame>,
) -> Result<(), Stop> {
    match frame {
        Some(f) if !frame_passes(*t, f) => Err(refuse(rt, to, Refusal::Frame, None, |out| {
            explain_frame(out, f, t.domains)
        })),
        _ => Ok(()),
    }
}
