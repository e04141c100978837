// What is counted.
ghost use Rattle.std.specs.Prelude.{◌<◌};

use basis::Refusal;

#[derive(Clone, Copy, Debug, PartialEq, Eq)]
pub enum Kind {
    Listed,
    // of those listed, with no cleaning
    Clean,
    // of those listed, with 32 cleanings or more
    Long,
    Refused(Refusal),
}

// The place in the tally, which is never that of a disagreement.
impl From<Kind> for u32 {
    ghost from_gives = { λ kind place. place < 63 };

    fn from(kind: Kind) -> u32 {
        match kind {
            Kind::Listed => 0,
            Kind::Clean => 1,
            Kind::Long => 2,
            Kind::Refused(why) => u8::from(why) as u32,
        }
    }
}
