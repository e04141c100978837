// A block in a frame, stretch by stretch: each lies in one window, and its threads are ranked anew.
ghost use Rattle.std.specs.Prelude.{◌≡◌, ◌+◌, ◌*◌, ◌≤◌, length};
ghost use Rattle.std.proofs.lemmas.List.Edits.{sets};
ghost use Rattle.table.specs.Mark.{marks_of};
ghost use Rattle.state.specs.State.{last_clock, Fits};
ghost use Rattle.state.specs.Given.{Usable};
ghost use Rattle.order.specs.Order.{order, ranked};
ghost use Rattle.frame.specs.Frame.{Timed};
ghost use Rattle.frame.specs.Mode.{framed};
ghost use Rattle.walk.specs.Step.{step};
ghost use Rattle.block.specs.Block.{inputs, end_of, trace_of};

use super::play::play;
use super::window::steps_left;
use frame::{Frame, domain_at};
use state::State;
use table::Table;
use walk::{Prepared, narrow};

// One step for each mask.
pub fn play_in_frame(
    t: Table,
    f: Frame,
    all: Prepared,
    s: State,
    masks: &[u32],
    bytes: &[u8],
    out: &mut [u8],
) -> State
    requires usable { Usable t × Timed f × (all.order.count ≤ 32) × (ranked all.order ≡ order t) × (all.marks ≡ marks_of t) }
    requires fits { Fits t s × (s.clock + length masks.now ≤ last_clock) × (length bytes.now ≡ length masks.now * t.count) × (length masks.now ≤ length out.old) }
    ensures { (result ≡ end_of (step t (framed f)) (inputs t masks.now bytes.now 0 (length masks.now)) s) × (out.new ≡ sets out.old 0 (trace_of (step t (framed f)) (inputs t masks.now bytes.now 0 (length masks.now)) s)) }
{
    let m = masks.len();
    let mut next = s;
    let mut k: usize = 0;
    while k < m {
        let clock = next.clock;
        let d = domain_at(f, clock);
        let p = narrow(t, all, d);
        let left = steps_left(f, clock);
        let n = (left as usize).min(m - k);
        next = play(t, p.order, p.marks, next, masks, bytes, k, n, out);
        k += n;
    }
    next
}
