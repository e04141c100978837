// Tables in the comma form of the planning sheet: reading and writing them.
#![tactic(auto)]

ghost use Rattle.std.specs.Prelude.{◌≡◌};
ghost use Rattle.reader.specs.Reader.{read_of};
ghost use Rattle.writer.specs.Writer.{told};
ghost use Rattle.sheet.specs.Sheet.{sheet_reading};
ghost use Rattle.sheet.specs.SheetWriter.{sheet_writing, sheet_written};

use basis::Refusal;
use reader::Fault;
use table::{Table, legal};

mod field;
mod judge;
mod put;
mod scan;
mod size;

pub use field::read_field;
use judge::judge;
use put::put_text;
use scan::scan;
use size::text_size;

// No table has more numbers: three, 16 rows, and eight a thread.
pub const MOST: usize = 275;

// What ends the cutting before all numbers are cut: at the next place stands no number, or the last number has a wrong end.
#[derive(Clone, Copy, Debug, PartialEq, Eq)]
pub enum Stop {
    NoNumber(Refusal),
    WrongEnd(Fault),
}

// A text that is being cut into numbers: what stopped it, the start of the next field, and the numbers so far.
// The count stands beside the array, for memory is fixed here and no heap is used.
#[derive(Clone, Copy, Debug, PartialEq, Eq)]
pub struct Cutting {
    pub stop: Option<Stop>,
    pub next: usize,
    pub count: usize,
    pub numbers: [u16; MOST],
}

// A table from all of the text s, or why it is refused, and where.
pub fn read(s: &[u8]) -> Result<Table, Fault>
    ensures { read_of result ≡ sheet_reading s.now }
{
    judge(s, scan(s, MOST))
}

// The text of a legal table, written into buf from the place at on; the answer is the place after it.
#[tactic(auto, unfolding(crate::specs::SheetWriter::sheet_writing, crate::specs::SheetWriter::sheet_written, basis::specs::Tests::pick))]
pub fn write(t: Table, buf: &mut [u8], at: usize) -> Result<usize, Refusal>
    ensures { (told result ≡ sheet_writing buf.old at t) × (buf.new ≡ sheet_written buf.old at t) }
{
    if !legal(t) {
        return Err(Refusal::NotLegal);
    }
    let size = text_size(t);
    let len = buf.len();
    if len < at {
        return Err(Refusal::NoRoom);
    }
    if len - at < size {
        return Err(Refusal::NoRoom);
    }
    let next = put_text(buf, at, t);
    Ok(next)
}
