// What a block's inner loop computes of one thread, number by number: nothing large is passed.
ghost use Rattle.std.specs.Prelude.{◌≡◌, true, ◌<◌, eqb, leb};
ghost use Rattle.basis.specs.Tests.{pick, and};
ghost use Rattle.state.specs.State.{execution_budget};
ghost use Rattle.block.specs.Play.{event_effect, clock_effect, would_run, since_after};

use table::Thread;

// Whether an event releases: P or more steps have passed since the last release.
fn is_due(th: Thread, event: bool, since: u16) -> bool
    ensures { result ≡ and event (leb th.period since) }
{
    if !event {
        return false;
    }
    th.period <= since
}

// What a release does to a thread: it leaves both rests as they are, refills them, or empties them.
#[derive(Clone, Copy, Debug, PartialEq, Eq)]
pub enum Effect {
    Stay,
    Refill,
    Empty,
}

// What a release does to an event thread.
pub fn event_effect(th: Thread, event: bool, since: u16) -> Effect
    ensures { result ≡ event_effect th event since }
{
    if is_due(th, event, since) {
        return Effect::Refill;
    }
    if th.deadline <= since {
        return Effect::Empty;
    }
    Effect::Stay
}

// The same of a periodic thread.
pub fn clock_effect(th: Thread, clock: u32) -> Effect
    requires { 0 < th.period }
    ensures { result ≡ clock_effect th clock }
{
    let offset = th.offset as u32;
    let deadline = th.deadline as u32;
    let period = th.period as u32;
    if clock < offset {
        return Effect::Stay;
    }
    let phase = (clock - offset) % period;
    if phase == 0 {
        return Effect::Refill;
    }
    if deadline <= phase {
        return Effect::Empty;
    }
    Effect::Stay
}

// How many steps a released thread may run: W - B.
pub fn execution_budget(th: Thread) -> u16
    ensures { result ≡ execution_budget th }
{
    if th.budget < th.blocking {
        return 0;
    }
    th.budget - th.blocking
}

// Whether a reached thread runs. The finish mark is asked for first, which is quicker.
pub fn would_run(finished: bool, execution: u16, b: u8) -> bool
    ensures { result ≡ would_run finished execution b }
{
    if finished {
        return false;
    }
    if execution == 0 {
        return false;
    }
    b == 1
}

// The finish mark once the byte is heard.
pub fn heard(finished: bool, b: u8) -> bool
    ensures { result ≡ pick (eqb b 2) true finished }
{
    if b == 2 {
        return true;
    }
    finished
}

// An event thread's steps since release, with the clock one further.
pub fn since_after(th: Thread, since: u16) -> u16
    ensures { result ≡ since_after th since }
{
    if th.kind != 1 {
        return since;
    }
    if since < th.period {
        return since + 1;
    }
    since
}

// A thread's place among the 32.
pub fn place(i: u8) -> usize
    requires { i < 32 }
    ensures { (result ≡ i) × (result < 32) }
{
    i as usize
}
