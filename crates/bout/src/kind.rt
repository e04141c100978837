// The kinds of what came up.
use basis::Refusal;

#[derive(Clone, Copy, Debug, PartialEq, Eq)]
pub enum Kind {
    Ran { framed: bool },
    IdleFor { framed: bool },
    Idle { framed: bool },
    // a step, in a frame or without one
    Refused(Refusal),
    Block { framed: bool },
    // a block of no steps
    NoSteps,
    BlockRefused(Refusal),
    Marked,
    Unmarked,
    NotLegal,
    Seen,
    Gap,
    Shown,
    Unshown,
    Started,
    Unstarted,
    // an event that released a thread, and one that came too early
    Released,
    Lost,
}

impl Kind {
    // Whether a step was made.
    pub fn is_step(self) -> bool {
        matches!(
            self,
            Kind::Ran { framed: _ } | Kind::IdleFor { framed: _ } | Kind::Idle { framed: _ }
        )
    }
}

// Where a kind is counted: a refused step at its number, a refused block 41 places on.
impl From<Kind> for u32 {
    fn from(kind: Kind) -> u32 {
        match kind {
            Kind::Ran { framed: false } => 1,
            Kind::IdleFor { framed: false } => 2,
            Kind::Idle { framed: false } => 3,
            Kind::Ran { framed: true } => 4,
            Kind::IdleFor { framed: true } => 5,
            Kind::Idle { framed: true } => 6,
            Kind::Block { framed: false } => 7,
            Kind::Block { framed: true } => 8,
            Kind::NoSteps => 9,
            Kind::Refused(why) => u8::from(why) as u32,
            Kind::BlockRefused(why) => 41 + u8::from(why) as u32,
            Kind::Marked => 40,
            Kind::Unmarked => 41,
            Kind::NotLegal => 42,
            Kind::Seen => 43,
            Kind::Gap => 44,
            Kind::Shown => 45,
            Kind::Unshown => 46,
            Kind::Started => 47,
            Kind::Unstarted => 48,
            Kind::Released => 49,
            Kind::Lost => 50,
        }
    }
}
