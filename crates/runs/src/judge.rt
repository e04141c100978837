// How many whole steps there are, and what refuses a run of so many before its first.
ghost use Rattle.std.specs.Prelude.{◌≡◌};
ghost use Rattle.block.specs.Block.{mode_of, number_of};
ghost use Rattle.runs.specs.Playing.{steps_in, run_refusal};

use basis::Refusal;
use block::mode_passes;
use frame::Frame;
use state::{State, fits};
use table::{Table, legal};

// The whole steps of so many masks and bytes, for so many threads: none where there is no thread.
pub fn whole_steps(count: u8, masks: usize, bytes: usize) -> usize
    ensures { result ≡ steps_in count masks bytes }
{
    if count == 0 {
        return 0;
    }
    masks.min(bytes / (count as usize))
}

// 11, 19, 12, 16 where there is less room than steps, or none of them.
pub fn refusal(
    t: Table,
    frame: Option<Frame>,
    s: State,
    steps: usize,
    room: usize,
) -> Option<Refusal>
    ensures { number_of result ≡ run_refusal t (mode_of frame) s steps room }
{
    if !legal(t) {
        return Some(Refusal::NotLegal);
    }
    if !mode_passes(t, frame) {
        return Some(Refusal::Frame);
    }
    if !fits(t, s) {
        return Some(Refusal::NotFitting);
    }
    if room < steps {
        return Some(Refusal::NoRoom);
    }
    None
}
