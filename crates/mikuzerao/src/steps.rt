// The start of a run: the bytes that a step has, and the state.
ghost use Rattle.std.specs.Prelude.{◌<◌, ◌≤◌};

use super::say::{Stop, Stream, say};
use super::stop::{Stuck, refuse_step};
use scheduler::fresh;
use state::State;
use table::Table;

// How many bytes a step has: one a thread, of which a legal table has one at least.
pub fn step_size(t: &Table) -> usize
    ensures { (0 < result) × (result ≤ 255) }
{
    (t.count as usize).max(1)
}

pub fn say_threads(rt: &(impl Print + Eprint), t: &Table) {
    say(rt, format_args!("threads {}\n", t.count));
}

// The state of a fresh start.
pub fn fresh_state(rt: &(impl Print + Eprint), to: Stream, t: &Table) -> Result<State, Stop> {
    match fresh(*t) {
        Ok(s) => Ok(s),
        Err(why) => Err(refuse_step(rt, to, t, 0, Stuck::Refused { why, mask: 0 })),
    }
}
