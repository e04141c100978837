// A block of steps in one call: the end state and one byte a step, written into a lent part of a record.
#![tactic(auto)]

ghost use Rattle.std.specs.Prelude.{◌≡◌};
ghost use Rattle.frame.specs.Mode.{unframed, framed};
ghost use Rattle.block.specs.Block.{mode_of, block, blocked_of};

use basis::Refusal;
use frame::Frame;
use state::State;
use table::Table;
use walk::prepare;

mod judge;
mod place;
mod play;
mod stretch;
mod thread;
mod window;

use judge::judge;
pub use judge::{clocks_left, mode_passes};
pub use place::{run_at, run_at_in_frame};
use play::play;
use stretch::play_in_frame;

// The place behind the last byte and a state, or why the block is refused and the state that was handed in.
#[derive(Clone, Copy, Debug, PartialEq, Eq)]
pub struct Ended {
    pub outcome: Result<usize, Refusal>,
    pub state: State,
}

// A refused block hands back the state that was handed in.
fn refuse(why: Refusal, s: State) -> Ended
    ensures { result ≡ record { outcome = Err why; state = s } }
{
    Ended {
        outcome: Err(why),
        state: s,
    }
}

// One step for each mask, in the frame if there is one: 11, 19, 12, 13, 18, 14, 16, or the end state, with one byte a step at the part's
// front.
pub fn run_in_mode(
    t: Table,
    frame: Option<Frame>,
    s: State,
    masks: &[u32],
    bytes: &[u8],
    part: &mut [u8],
) -> Ended
    ensures { blocked_of result part.new ≡ block t (mode_of frame) masks.now bytes.now s part.old }
{
    if let Err(why) = judge(t, frame, s, masks, bytes, part.len()) {
        return refuse(why, s);
    }
    let all = prepare(t);
    let m = masks.len();
    let end = match frame {
        Some(f) => play_in_frame(t, f, all, s, masks, bytes, part),
        None => play(t, all.order, all.marks, s, masks, bytes, 0, m, part),
    };
    Ended {
        outcome: Ok(m),
        state: end,
    }
}

// The same without a frame: 11, 12, 13, 18, 14, 16, or the end state.
pub fn run(t: Table, s: State, masks: &[u32], bytes: &[u8], part: &mut [u8]) -> Ended
    ensures { blocked_of result part.new ≡ block t unframed masks.now bytes.now s part.old }
{
    run_in_mode(t, None, s, masks, bytes, part)
}

// The same in a frame.
pub fn run_in_frame(
    t: Table,
    f: Frame,
    s: State,
    masks: &[u32],
    bytes: &[u8],
    part: &mut [u8],
) -> Ended
    ensures { blocked_of result part.new ≡ block t (framed f) masks.now bytes.now s part.old }
{
    run_in_mode(t, Some(f), s, masks, bytes, part)
}
