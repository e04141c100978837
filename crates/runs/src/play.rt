// The whole steps before the first that is refused, as one block.
ghost use Rattle.std.specs.Prelude.{◌≤◌, ◌≡◌, true, length};
ghost use Rattle.table.specs.Legal.{Legal};
ghost use Rattle.state.specs.State.{Fits};
ghost use Rattle.frame.specs.Mode.{mode_ok};
ghost use Rattle.block.specs.Block.{mode_of};
ghost use Rattle.runs.specs.Playing.{played_of, whole_steps};
ghost use Rattle.runs.specs.Stopping.{Plays};

use super::Played;
use super::stop::stop;
use block::run_in_mode;
use frame::Frame;
use state::State;
use table::Table;

// One byte a step at the part's front, with the state behind the last step that was made and what refuses the next.
pub fn play(
    t: Table,
    frame: Option<Frame>,
    s: State,
    masks: &[u32],
    bytes: &[u8],
    part: &mut [u8],
) -> Played
    requires { Legal t × (mode_ok t (mode_of frame) ≡ true) × Fits t s × (whole_steps t masks.now bytes.now ≤ length part.old) }
    ensures { Plays t (mode_of frame) s masks.now bytes.now part.old (played_of result) part.new }
{
    let b = stop(t, s.clock, masks, bytes.len());
    let n = b.n;
    let end = n * (t.count as usize);
    let r = run_in_mode(t, frame, s, &masks[..n], &bytes[..end], part);
    Played {
        state: r.state,
        why: b.why,
        n,
    }
}
