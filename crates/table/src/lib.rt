// The table of threads: up to 16 domains with a flow relation, up to 32 threads; which tables are legal, and the leak marks.
#![tactic(auto)]

ghost use Rattle.std.specs.Prelude.{◌≡◌};
ghost use Rattle.table.specs.Legal.{legal as is_legal};
ghost use Rattle.table.specs.Mark.{told, given, marking, marks_given};

use basis::Refusal;

mod judge;
mod leak;
mod ranges;

pub use judge::is_taken;
pub use leak::mark_all;
pub use ranges::{field_range, fields, fields_in, in_range, make_thread, no_thread};

// How many fields a thread has.
pub const FIELDS: usize = 8;

#[derive(Clone, Copy, Debug, PartialEq, Eq)]
pub struct Thread {
    pub domain: u8,
    pub priority: u8,
    pub period: u16,
    pub offset: u16,
    pub budget: u16,
    pub deadline: u16,
    pub blocking: u16,
    // 0 periodic, 1 event
    pub kind: u8,
}

#[derive(Clone, Copy, Debug, PartialEq, Eq)]
pub struct Table {
    pub version: u8,
    pub domains: u8,
    pub count: u8,
    pub rows: [u16; 16],
    pub threads: [Thread; 32],
}

// From low up to below a limit.
#[derive(Clone, Copy, Debug, PartialEq, Eq)]
pub struct Range {
    pub low: u16,
    pub below: u32,
}

// How many versions, domains and threads there may be.
pub const VERSIONS: Range = Range { low: 1, below: 3 };

pub const DOMAIN_COUNTS: Range = Range { low: 1, below: 17 };

pub const THREAD_COUNTS: Range = Range { low: 1, below: 33 };

// A leak mark: the first thread that it protects, where there is one.
pub type Mark = Option<u8>;

// Whether a table is legal.
pub fn legal(t: Table) -> bool
    ensures { result ≡ is_legal t }
{
    judge::table_passes(t)
}

// The leak mark of each thread; refuses with 11.
#[tactic(auto, using(crate::proofs::LegalLaws::legal_small), unfolding(crate::specs::Mark::marking, crate::specs::Mark::marks_given, basis::specs::Tests::pick))]
pub fn marks(t: Table) -> Result<[Mark; 32], Refusal>
    ensures { (told result ≡ marking t) × (given result ≡ marks_given t) }
{
    if !legal(t) {
        return Err(Refusal::NotLegal);
    }
    Ok(mark_all(t))
}
