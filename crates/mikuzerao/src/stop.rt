// The last line of a run that is refused, and its sentence.
ghost use Rattle.std.specs.Prelude.{◌≡◌};
ghost use Rattle.mikuzerao.specs.Refused.{refusal_of};

use super::masks::masks_left;
use super::refusal::refuse;
use super::say::{Stop, Stream};
use basis::Refusal;
use sentence::{explain_event, explain_other, explain_short};
use std::io::Read;
use table::Table;

// Why a step is not made: it has only so many bytes of the number that it wants, and so many of its mask, or it is refused with a mask.
#[derive(Clone, Copy, Debug, PartialEq, Eq)]
pub enum Stuck {
    Short { bytes: usize, mask: usize },
    Refused { why: Refusal, mask: u32 },
}

impl From<Stuck> for Refusal {
    ghost from_gives = { λ stuck why. why ≡ refusal_of stuck };

    fn from(stuck: Stuck) -> Refusal {
        match stuck {
            Stuck::Short { bytes: _, mask: _ } => Refusal::StepBytes,
            Stuck::Refused { why, mask: _ } => why,
        }
    }
}

fn explain_stuck(out: &mut [u8], t: &Table, clock: u32, stuck: Stuck) -> usize {
    match stuck {
        Stuck::Short { bytes, mask } => {
            explain_short(out, clock, bytes as u64, t.count as u64, mask as u64)
        }
        Stuck::Refused {
            why: Refusal::EventMask,
            mask,
        } => explain_event(out, clock, mask, *t),
        Stuck::Refused { why, mask: _ } => explain_other(out, Some(why)),
    }
}

// The refusal of a step.
pub fn refuse_step(
    rt: &(impl Print + Eprint),
    to: Stream,
    t: &Table,
    clock: u32,
    stuck: Stuck,
) -> Stop {
    let why = Refusal::from(stuck);
    refuse(rt, to, why, Some(clock as u64), |out| {
        explain_stuck(out, t, clock, stuck)
    })
}

// The steps are at their end: a rest is a step short of bytes, and masks must not be left over.
pub fn check_end<S: Read>(events: &mut Option<S>, rest: usize) -> Result<(), Stuck> {
    let mask = if masks_left(events) { 1 } else { 0 };
    if rest == 0 && mask == 0 {
        return Ok(());
    }
    Err(Stuck::Short { bytes: rest, mask })
}
