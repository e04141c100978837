// The engine of a run with events, in a frame or without: of the whole steps that are there, those before the first that is refused, and
// what refuses it.
#![tactic(auto)]

ghost use Rattle.std.specs.Prelude.{◌≡◌};
ghost use Rattle.block.specs.Block.{mode_of};
ghost use Rattle.runs.specs.Playing.{ran, left_by};

use basis::Refusal;
use frame::Frame;
use state::State;
use table::Table;

mod judge;
mod play;
mod stop;

pub use judge::{refusal, whole_steps};
use play::play;

// After n steps: the state, and what refuses the next whole step, or the run itself.
#[derive(Clone, Copy, Debug, PartialEq, Eq)]
pub struct Played {
    pub state: State,
    pub why: Option<Refusal>,
    pub n: usize,
}

// 11, 19, 12 or 16 before the first step; else the whole steps before the first that is refused, one byte a step at the part's front.
pub fn run(
    t: Table,
    frame: Option<Frame>,
    s: State,
    masks: &[u32],
    bytes: &[u8],
    part: &mut [u8],
) -> Played
    ensures { left_by result part.new ≡ ran t (mode_of frame) masks.now bytes.now s part.old }
{
    let steps = whole_steps(t.count, masks.len(), bytes.len());
    if let Some(why) = refusal(t, frame, s, steps, part.len()) {
        return Played {
            state: s,
            why: Some(why),
            n: 0,
        };
    }
    play(t, frame, s, masks, bytes, part)
}
