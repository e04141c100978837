// Playing a run of steps as one block, and printing a line for each into a buffer.
ghost use Rattle.std.specs.Prelude.{◌+◌, ◌≤◌, ◌<◌, ◌≡◌, length};
ghost use Rattle.table.specs.Legal.{Legal};
ghost use Rattle.state.specs.State.{Fits};
ghost use Rattle.bench.specs.Text.{played_all, from};
ghost use Rattle.block.specs.Block.{number_of};
ghost use Rattle.bench.specs.Playing.{Plays, Roomy, refusal_behind, played_of};

use basis::Refusal;
use block::clocks_left;
use report::print_trace;
use scheduler::State;
use table::Table;

// After some steps: the state, what refuses the next, where something does, and the place after the lines.
#[derive(Clone, Copy, Debug, PartialEq, Eq)]
pub struct Played {
    pub state: State,
    pub why: Option<Refusal>,
    pub next: usize,
}

// What refuses the step behind n steps of so many whole ones, with a rest behind them.
fn refusal(n: usize, whole: usize, rest: usize) -> Option<Refusal>
    ensures { number_of result ≡ refusal_behind n whole rest }
{
    if n < whole {
        return Some(Refusal::LastClock);
    }
    if rest == 0 {
        return None;
    }
    Some(Refusal::StepBytes)
}

// All steps of these bytes, with their lines from the start of the buffer on: one block up to the last clock, in which each step has an
// empty mask of events. None refuses it; what stands behind it may be refused.
pub fn play(t: Table, s: State, bytes: &[u8], out: &mut [u8]) -> Played
    requires { Legal t × Fits t s × Roomy t bytes.now out.old }
    ensures { (result.next ≤ length out.new) × Fits t result.state × Plays out.old (record { state = s; why = 0; next = 0 }) out.new (played_of result) (played_all t bytes.now (from s)) }
{
    let count = t.count as usize;
    let len = bytes.len();
    let whole = len / count;
    let n = clocks_left(s.clock).min(whole);
    let end = n * count;
    let masks = [0u32; 4000];
    let mut trace = [0u8; 4000];
    let r = block::run(t, s, &masks[..n], &bytes[..end], &mut trace);
    let next = print_trace(out, 0, s.clock, &trace[..n]);
    Played {
        state: r.state,
        why: refusal(n, whole, len % count),
        next,
    }
}
