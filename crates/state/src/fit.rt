// The test that a state fits its table.
ghost use Rattle.std.specs.Prelude.{◌≡◌};
ghost use Rattle.basis.specs.Tests.{pick};
ghost use Rattle.state.specs.State.{execution_budget, longest_since, used_fits, unused_fits, fits};

use super::{LAST_CLOCK, Progress, State};
use table::{Table, Thread};

// How many steps a thread may run from one release to the next: W - B.
pub fn execution_budget(th: Thread) -> u16
    ensures { result ≡ execution_budget th }
{
    th.budget.saturating_sub(th.blocking)
}

// The steps since release that a thread has at most: P where it is released by events, 0 where by the clock.
#[tactic(auto, unfolding(crate::specs::State::longest_since, basis::specs::Tests::pick))]
pub fn longest_since(th: Thread) -> u16
    ensures { result ≡ longest_since th }
{
    if th.kind == 1 { th.period } else { 0 }
}

// Whether a thread's progress fits at a clock.
#[tactic(auto, unfolding(crate::specs::State::used_fits))]
fn used_fits(th: Thread, clock: u32, p: Progress) -> bool
    ensures { result ≡ used_fits th clock p }
{
    p.rest <= th.budget
        && p.execution <= execution_budget(th)
        && p.ran <= clock
        && p.since <= longest_since(th)
}

// Whether what stands past the last thread is zero and unmarked.
#[tactic(auto, unfolding(crate::specs::State::unused_fits))]
fn unused_fits(p: Progress) -> bool
    ensures { result ≡ unused_fits p }
{
    p.rest == 0 && p.execution == 0 && !p.finished && p.ran == 0 && p.since == 0
}

// Whether a progress fits its place at a clock: a thread's, or one that is not in use.
#[tactic(auto, unfolding(basis::specs::Tests::pick))]
fn place_fits(th: Thread, used: bool, clock: u32, p: Progress) -> bool
    ensures { result ≡ pick used (used_fits th clock p) (unused_fits p) }
{
    if used {
        used_fits(th, clock, p)
    } else {
        unused_fits(p)
    }
}

pub fn fits(t: Table, s: State) -> bool
    ensures { result ≡ fits t s }
{
    let clock = s.clock;
    if LAST_CLOCK < clock {
        return false;
    }
    for i in 0..32u8 {
        let th = t.threads[i as usize];
        let p = s.threads[i as usize];
        if !place_fits(th, i < t.count, clock, p) {
            return false;
        }
    }
    true
}
