// What is counted.
ghost use Rattle.std.specs.Prelude.{◌<◌};

use mend::Unmendable;

#[derive(Clone, Copy, Debug, PartialEq, Eq)]
pub enum Kind {
    Mended,
    // of those mended, with no pair added
    Whole,
    // of those mended, with 100 pairs or more added
    Long,
    Refused(Unmendable),
}

// The place in the tally, which is never that of a disagreement.
impl From<Kind> for u32 {
    ghost from_gives = { λ kind place. place < 63 };

    fn from(kind: Kind) -> u32 {
        match kind {
            Kind::Mended => 0,
            Kind::Whole => 1,
            Kind::Long => 2,
            Kind::Refused(Unmendable::BadCount) => 5,
            Kind::Refused(Unmendable::BadRow(_)) => 6,
            Kind::Refused(Unmendable::NoRoom) => 16,
        }
    }
}
