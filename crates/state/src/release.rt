// The release: the first part of a step.
ghost use Rattle.std.specs.Prelude.{◌≡◌, ◌<◌, leb};
ghost use Rattle.basis.specs.Tests.{and};
ghost use Rattle.state.specs.Given.{Usable};
ghost use Rattle.state.specs.Release.{has_event, refilled, cut, by_clock, by_event, released, release};

use super::fit::execution_budget;
use super::{Progress, State};
use table::{Table, Thread};

// Whether thread i has an event in a step whose mask this is.
pub fn has_event(mask: u32, i: u8) -> bool
    requires { i < 32 }
    ensures { result ≡ has_event mask i }
{
    (mask >> i) % 2 == 1
}

// Released: both rests are full and the finish mark is cleared.
fn refilled(th: Thread, mut p: Progress) -> Progress
    ensures { result ≡ refilled th p }
{
    p.rest = th.budget;
    p.execution = execution_budget(th);
    p.finished = false;
    p.since = 0;
    p
}

// Past the deadline: both rests are lost.
fn cut(mut p: Progress) -> Progress
    ensures { result ≡ cut p }
{
    p.rest = 0;
    p.execution = 0;
    p
}

// What a periodic thread's progress is after the release at a clock.
fn by_clock(th: Thread, clock: u32, p: Progress) -> Progress
    requires { 0 < th.period }
    ensures { result ≡ by_clock th clock p }
{
    let offset = th.offset as u32;
    let deadline = th.deadline as u32;
    let period = th.period as u32;
    if clock < offset {
        return p;
    }
    let phase = (clock - offset) % period;
    if phase == 0 {
        return refilled(th, p);
    }
    if deadline <= phase {
        return cut(p);
    }
    p
}

// Whether an event releases: P or more steps have passed since the last release.
fn is_due(th: Thread, event: bool, p: Progress) -> bool
    ensures { result ≡ and event (leb th.period p.since) }
{
    event && th.period <= p.since
}

// What an event thread's progress is after the release, with an event or without.
#[tactic(auto, unfolding(crate::specs::Release::by_event, basis::specs::Tests::pick))]
fn by_event(th: Thread, event: bool, p: Progress) -> Progress
    ensures { result ≡ by_event th event p }
{
    if is_due(th, event, p) {
        refilled(th, p)
    } else if th.deadline <= p.since {
        cut(p)
    } else {
        p
    }
}

#[tactic(auto, unfolding(crate::specs::Release::released, basis::specs::Tests::pick))]
fn released(th: Thread, clock: u32, event: bool, p: Progress) -> Progress
    requires { 0 < th.period }
    ensures { result ≡ released th clock event p }
{
    if th.kind == 1 {
        by_event(th, event, p)
    } else {
        by_clock(th, clock, p)
    }
}

impl State {
    // Every thread's release, in a step with this mask.
    pub fn release(self, t: Table, mask: u32) -> State
        requires { Usable t }
        ensures { result ≡ release t mask self }
    {
        let clock = self.clock;
        let mut next = self;
        for i in 0..t.count {
            let th = t.threads[i as usize];
            let p = next.threads[i as usize];
            let event = has_event(mask, i);
            next.threads[i as usize] = released(th, clock, event, p);
        }
        next
    }
}
