// What a person types: decimal fields between commas and ends of lines, read a character at a time, so that no text has to fit into memory.
#![tactic(auto)]

use basis::Refusal;
use frame::Frame;

mod characters;
mod frame_lines;
mod lists;
mod numbers;
mod row_line;

pub use characters::{close, feed, new_text, read_field};
pub use frame_lines::{close_windows, feed_windows, new_windows, read_windows};
pub use numbers::{command_of, number_of, signed_of};
pub use row_line::{close_rows, feed_rows, new_rows, read_rows};

// What ends a field.
#[derive(Clone, Copy, Debug, PartialEq, Eq)]
pub enum End {
    Comma,
    Line,
}

// How many characters a field has, with its first.
#[derive(Clone, Copy, Debug, PartialEq, Eq)]
pub enum Size {
    Empty,
    One(u8),
    More(u8),
}

// A field so far: the places of its first character and of the next one, its size, the value of its digits, whether a character is no
// part of a number, whether a CR stands last that may end the line, and what ended it.
// `strange` stays beside `value`: the definition `taken` goes on with the value behind a strange character.
#[derive(Clone, Copy, Debug, PartialEq, Eq)]
pub struct Field {
    pub start: u64,
    pub at: u64,
    pub size: Size,
    pub value: u64,
    pub strange: bool,
    pub cr: bool,
    pub ended: Option<End>,
}

// A field after a part of a text, and the place in that part behind its last character read.
#[derive(Clone, Copy, Debug, PartialEq, Eq)]
pub struct Reading {
    pub field: Field,
    pub next: usize,
}

// Why a line of rows is refused, and the place of the fault.
#[derive(Clone, Copy, Debug, PartialEq, Eq)]
pub struct Fault {
    pub why: Refusal,
    pub place: u64,
}

// A line of rows so far: its values (17 counts for more than 16), the place of each, whether the line is over, and the first fault.
// The values stand apart from the places, for `mend` takes a slice of values, and no heap is used.
#[derive(Clone, Copy, Debug, PartialEq, Eq)]
pub struct Rows {
    pub field: Field,
    pub count: u8,
    pub rows: [u16; 16],
    pub starts: [u64; 17],
    pub done: bool,
    pub fault: Option<Fault>,
}

// The lines of a frame so far: the domain of a line that is half read, whether some line is not two numbers, and the windows (65 counts
// for more than 64).
// `bad` stays beside `frame`: the definition `spoilt` keeps the windows of the lines before.
#[derive(Clone, Copy, Debug, PartialEq, Eq)]
pub struct Windows {
    pub field: Field,
    pub domain: Option<u8>,
    pub bad: bool,
    pub frame: Frame,
}
