// Two readers on the same bytes, and the host's three calls.
use crate::Kind;
use crate::host_calls::{bound, mark};
use reader::Fault;
use table::Table;
use tally::agreed;

// Whether both readers say the same, and hand the same table over.
pub fn read(ours: Result<Table, Fault>, theirs: Result<Table, Fault>) -> Option<Kind> {
    agreed(ours, theirs, |read| match read {
        Ok(_) => Kind::Read,
        Err(fault) => Kind::Refused(fault.why),
    })
}

// What came up: of the two readers, of the host's mark and of its bound.
#[derive(Clone, Copy, Debug, PartialEq, Eq)]
pub struct Answers {
    pub read: Option<Kind>,
    pub mark: Option<Kind>,
    pub bound: Option<Kind>,
}

// The number that a reading refuses with, as the second reader has it, 0 for none.
fn number(read: Result<Table, Fault>) -> u32 {
    read.map_or_else(|fault| rival_table::number(fault.why) as u32, |_| 0)
}

pub fn calls(bytes: &[u8], thread: u32) -> Answers {
    let theirs = rival_bytes::read(bytes);
    let told = host::mikuzerao_verdict(bytes) == number(theirs);
    Answers {
        read: read(codec::read(bytes), theirs).filter(|_| told),
        mark: mark(theirs, bytes, thread),
        bound: bound(theirs, bytes, thread),
    }
}
