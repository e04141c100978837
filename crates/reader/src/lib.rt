// Reading the bytes of a table: each number is judged as it is read.
#![tactic(auto)]

ghost use Rattle.std.specs.Prelude.{◌≡◌};
ghost use Rattle.reader.specs.Reader.{reading, read_of};

use basis::Refusal;
use flow::{Gap, first_gap};
use table::{DOMAIN_COUNTS, THREAD_COUNTS, Table, VERSIONS};

mod parts;
mod steps;

use parts::{read_rest, read_rows};
use steps::read_ranged;

// Where a reader stands: the start of the last number, the start of the next, the last number.
#[derive(Clone, Copy, Debug, PartialEq, Eq)]
pub struct Cursor {
    pub start: usize,
    pub next: usize,
    pub value: u16,
}

// Why a table is refused, and the place of the fault.
#[derive(Clone, Copy, Debug, PartialEq, Eq)]
pub struct Fault {
    pub why: Refusal,
    pub place: usize,
}

// A table from all of s, or why it is refused, and where.
pub fn read(s: &[u8]) -> Result<Table, Fault>
    ensures { read_of result ≡ reading s.now }
{
    let from = Cursor {
        start: 0,
        next: 0,
        value: 0,
    };
    let v = read_ranged(s, from, VERSIONS, Refusal::Version)?;
    let d = read_ranged(s, v, DOMAIN_COUNTS, Refusal::Count)?;
    let n = read_ranged(s, d, THREAD_COUNTS, Refusal::Count)?;
    let version = v.value as u8;
    let domains = d.value as u8;
    let count = n.value as u8;
    let (cursor, rows) = read_rows(s, domains, n)?;
    if let Some(Gap { a, b, c }) = first_gap(rows, domains) {
        return Err(Fault {
            why: Refusal::Intransitive { a, b, c },
            place: cursor.start,
        });
    }
    read_rest(s, version, domains, count, rows, cursor)
}
