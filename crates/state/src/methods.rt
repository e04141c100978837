// The methods on the state, each by value: pay, finish and tick, which document 01 names, and count return the next state.
ghost use Rattle.std.specs.Prelude.{◌≡◌, ◌<◌, ◌≤◌};
ghost use Rattle.state.specs.State.{no_progress, progress, last_clock};
ghost use Rattle.state.specs.Methods.{pay, finish, count, aged, tick};

use super::fit::longest_since;
use super::{Progress, State};
use table::{Table, Thread};

pub fn no_progress() -> Progress
    ensures { result ≡ no_progress }
{
    Progress {
        rest: 0,
        execution: 0,
        finished: false,
        ran: 0,
        since: 0,
    }
}

// A thread's progress with the clock one further.
fn aged(th: Thread, mut p: Progress) -> Progress
    ensures { result ≡ aged th p }
{
    if p.since < longest_since(th) {
        p.since += 1;
    }
    p
}

impl State {
    // Thread i pays one of its rest.
    pub fn pay(mut self, i: u8) -> State
        requires { (i < 32) × (0 < (progress self i).rest) }
        ensures { result ≡ pay self i }
    {
        self.threads[i as usize].rest -= 1;
        self
    }

    // Thread i is marked as finished.
    pub fn finish(mut self, i: u8) -> State
        requires { i < 32 }
        ensures { result ≡ finish self i }
    {
        self.threads[i as usize].finished = true;
        self
    }

    // Thread i ran one step more, and has one less to run.
    pub fn count(mut self, i: u8) -> State
        requires { (i < 32) × ((progress self i).ran < last_clock) × (0 < (progress self i).execution) }
        ensures { result ≡ count self i }
    {
        let p = &mut self.threads[i as usize];
        p.ran += 1;
        p.execution -= 1;
        self
    }

    // The clock goes up by one, and with it the steps since each release.
    pub fn tick(self, t: Table) -> State
        requires { (self.clock < last_clock) × (t.count ≤ 32) }
        ensures { result ≡ tick t self }
    {
        let clock = self.clock + 1;
        let mut next = self;
        for i in 0..t.count as usize {
            let th = t.threads[i];
            let p = next.threads[i];
            next.threads[i] = aged(th, p);
        }
        next.clock = clock;
        next
    }
}
