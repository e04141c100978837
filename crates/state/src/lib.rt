// The state by value: its methods, its release, and the test that it fits its table.
#![tactic(auto)]

ghost use Rattle.std.specs.Prelude.{◌≡◌};
ghost use Rattle.state.specs.State.{told, given, starting, fresh_given};

use basis::Refusal;
use table::{Table, legal};

mod fit;
mod methods;
mod release;
mod start;

pub use fit::fits;
pub use methods::no_progress;
pub use release::has_event;

// The rest of a thread's budget, its rest of execution, its finish mark, its count of steps run, and an event thread's steps since
// its release.
#[derive(Clone, Copy, Debug, PartialEq, Eq)]
pub struct Progress {
    pub rest: u16,
    pub execution: u16,
    pub finished: bool,
    pub ran: u32,
    pub since: u16,
}

// The last clock: no step is made from it on.
pub const LAST_CLOCK: u32 = 1000000000;

// Steps done, and the progress of each thread.
#[derive(Clone, Copy, Debug, PartialEq, Eq)]
pub struct State {
    pub clock: u32,
    pub threads: [Progress; 32],
}

// The state before the first step of a table; refuses with 11.
pub fn fresh(t: Table) -> Result<State, Refusal>
    ensures { (told result ≡ starting t) × (given result ≡ fresh_given t) }
{
    if !legal(t) {
        return Err(Refusal::NotLegal);
    }
    Ok(start::fresh_state(t))
}
