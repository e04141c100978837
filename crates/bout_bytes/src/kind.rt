// The kinds of what came up.
use basis::Refusal;

#[derive(Clone, Copy, Debug, PartialEq, Eq)]
pub enum Kind {
    Read,
    Refused(Refusal),
    Written,
    NotLegal,
    NoRoom,
    Unmarked,
    Marked,
    Bound,
    NoBound,
    // the table lacks the thread that the host asks for
    NoThread,
    // the host's bytes are no table
    NotRead,
    NotAsked,
}

// Where a kind is counted: a reader's refusal at its number.
impl From<Kind> for u32 {
    fn from(kind: Kind) -> u32 {
        match kind {
            Kind::Read => 0,
            Kind::Refused(why) => u8::from(why) as u32,
            Kind::Written => 30,
            Kind::NotLegal => 31,
            Kind::NoRoom => 32,
            Kind::Unmarked => 40,
            Kind::Marked => 41,
            Kind::Bound => 42,
            Kind::NoBound => 43,
            Kind::NoThread => 44,
            Kind::NotRead => 45,
            Kind::NotAsked => 46,
        }
    }
}
