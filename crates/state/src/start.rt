// The state before the first step.
ghost use Rattle.std.specs.Prelude.{◌≡◌, ◌≤◌};
ghost use Rattle.state.specs.State.{with_since, longest_since, no_progress, fresh};

use super::fit::longest_since;
use super::methods::no_progress;
use super::{Progress, State};
use table::{Table, Thread};

// A thread's progress before the first step.
fn ready(th: Thread) -> Progress
    ensures { result ≡ with_since (longest_since th) no_progress }
{
    let mut p = no_progress();
    p.since = longest_since(th);
    p
}

pub fn fresh_state(t: Table) -> State
    requires { t.count ≤ 32 }
    ensures { result ≡ fresh t }
{
    let none = no_progress();
    let mut threads = [none; 32];
    for i in 0..t.count {
        let th = t.threads[i as usize];
        threads[i as usize] = ready(th);
    }
    State { clock: 0, threads }
}
