// The commands of a drive: one number a line.
ghost use Rattle.std.specs.Prelude.{◌≤◌};

use super::parts::read_parts;
use input::read_on;
use std::io::Read;
use typed::{End, Field, close, command_of, new_text, read_field};

// A line of the commands is no number.
#[derive(Clone, Copy, Debug, PartialEq, Eq)]
pub struct NoNumber;

// A field that is read, and how many lines were read before it.
#[derive(Clone, Copy, Debug, PartialEq, Eq)]
struct Counting {
    field: Field,
    lines: u64,
}

// A line that has ended.
fn count_line(lines: u64, f: Field) -> Result<u64, NoNumber> {
    match command_of(f) {
        Some(_) => Ok(lines.saturating_add(1)),
        None => Err(NoNumber),
    }
}

// The lines that end in a part.
fn count_part(mut c: Counting, part: &[u8]) -> Result<Counting, NoNumber> {
    let mut at = 0;
    // each field takes one character at least
    for _ in 0..part.len() {
        if part.len() <= at {
            break;
        }
        let r = read_field(c.field, part, at);
        c.field = r.field;
        at = r.next;
        if c.field.ended.is_some() {
            c.lines = count_line(c.lines, c.field)?;
        }
    }
    Ok(c)
}

// How many lines a source gives, each of which is a number; the last may lack its end.
pub fn count_commands<S: Read>(from: &mut S) -> Result<u64, NoNumber> {
    let mut c = Counting {
        field: new_text(),
        lines: 0,
    };
    let read = read_parts(from, |part| -> Result<(), NoNumber> {
        c = count_part(c, part)?;
        Ok(())
    });
    read.unwrap_or(Ok(()))?;
    if c.field.ended == Some(End::Line) {
        return Ok(c.lines);
    }
    count_line(c.lines, close(c.field))
}

// The commands that are still to be taken: a part of their text, in an array by value for want of a heap, and the place in it.
#[derive(Drop)]
pub struct Commands<S> {
    from: S,
    part: [u8; 65536],
    len: usize,
    at: usize,
    ghost within: { len ≤ 65536 },
}

impl<S: Read> Commands<S> {
    pub fn new(from: S) -> Commands<S> {
        Commands {
            from,
            part: [0u8; 65536],
            len: 0,
            at: 0,
        }
    }

    // Reads the next part of the text. Whether there is one.
    fn refill(&mut self) -> bool {
        self.at = 0;
        // as many turns as count for no end
        for _ in 0..u64::MAX {
            let f = read_on(&mut self.from, &mut self.part, 0);
            self.len = f.count;
            if 0 < f.count || !f.reach.is_open() {
                break;
            }
        }
        0 < self.len
    }

    // The number of the next line, if one follows.
    pub fn next_command(&mut self) -> Option<i32> {
        let mut field = new_text();
        for _ in 0..u64::MAX {
            if self.len <= self.at && !self.refill() {
                break;
            }
            let r = read_field(field, &self.part[..self.len], self.at);
            field = r.field;
            self.at = r.next;
            if field.ended.is_some() {
                break;
            }
        }
        command_of(close(field))
    }
}
