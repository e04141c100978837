// The scheduler: one step from every fitting state, in a frame or without, or the number that refuses it.
#![tactic(auto)]

ghost use Rattle.std.specs.Prelude.{◌≡◌, ◌<◌, ◌≤◌, eqb, ltb, not};
ghost use Rattle.basis.specs.Tests.{and, or};
ghost use Rattle.basis.specs.Refusals.{refused_by};
ghost use Rattle.state.specs.Release.{has_event};
ghost use Rattle.table.specs.Threads.{thread};
ghost use Rattle.state.specs.Given.{Usable};
ghost use Rattle.order.specs.Order.{ranked, Below};
ghost use Rattle.frame.specs.Mode.{unframed, framed};
ghost use Rattle.walk.specs.Step.{advance};
ghost use Rattle.scheduler.specs.Taken.{mask_ok, taken_then, taken, taken_of};

use basis::Refusal;
pub use frame::{Frame, Window};
use frame::{domain_at, frame_passes};
use state::has_event;
pub use state::{LAST_CLOCK, Progress, State, fits, fresh};
use table::{Table, legal};
pub use walk::Answer;
use walk::{Prepared, advance, narrow, prepare};

// A step's answer, or why it is refused.
pub type Outcome = Result<Answer, Refusal>;

// On a refusal the state is the one that was handed in.
#[derive(Clone, Copy, Debug, PartialEq, Eq)]
pub struct Stepped {
    pub outcome: Outcome,
    pub state: State,
}

fn refuse(why: Refusal, s: State) -> Stepped
    ensures { taken_of result ≡ record { told = refused_by why; state = s } }
{
    Stepped {
        outcome: Err(why),
        state: s,
    }
}

// Whether thread i is an event thread of the table.
fn takes_events(t: Table, i: u8) -> bool
    requires { i < 32 }
    ensures { result ≡ and (ltb i t.count) (eqb (thread t i).kind 1) }
{
    i < t.count && t.threads[i as usize].kind == 1
}

// Whether bit i of a mask is not set, or is that of an event thread.
fn bit_passes(t: Table, mask: u32, i: u8) -> bool
    requires { i < 32 }
    ensures { result ≡ or (not (has_event mask i)) (and (ltb i t.count) (eqb (thread t i).kind 1)) }
{
    !has_event(mask, i) || takes_events(t, i)
}

// Whether a mask has bits of event threads only.
pub fn mask_passes(t: Table, mask: u32) -> bool
    ensures { result ≡ mask_ok t mask }
{
    for i in 0..32u8 {
        if !bit_passes(t, mask, i) {
            return false;
        }
    }
    true
}

// A prepared step of a table that is known to be legal: 12, 13, 18, 14, or the answer and the next state.
fn step_over(t: Table, p: Prepared, s: State, mask: u32, bytes: &[u8]) -> Stepped
    requires usable { Usable t }
    requires count_bound { (p.order.count ≤ 32) × Below t.count (ranked p.order) }
    ensures { taken_of result ≡ taken_then t (advance t p.marks (ranked p.order) (record { mask = mask; bytes = bytes.now }) s) (record { mask = mask; bytes = bytes.now }) s }
{
    if !fits(t, s) {
        return refuse(Refusal::NotFitting, s);
    }
    if bytes.len() != t.count as usize {
        return refuse(Refusal::StepBytes, s);
    }
    if !mask_passes(t, mask) {
        return refuse(Refusal::EventMask, s);
    }
    if LAST_CLOCK <= s.clock {
        return refuse(Refusal::LastClock, s);
    }
    let w = advance(t, p, s, mask, bytes);
    Stepped {
        outcome: Ok(w.answer),
        state: w.state,
    }
}

// One step: 11, 12, 13, 18, 14, or the answer and the next state.
pub fn step(t: Table, s: State, mask: u32, bytes: &[u8]) -> Stepped
    ensures { taken_of result ≡ taken t unframed (record { mask = mask; bytes = bytes.now }) s }
{
    if !legal(t) {
        return refuse(Refusal::NotLegal, s);
    }
    let p = prepare(t);
    step_over(t, p, s, mask, bytes)
}

// One step in a frame: 11, 19, 12, 13, 18, 14, or the answer and the next state.
pub fn step_in_frame(t: Table, f: Frame, s: State, mask: u32, bytes: &[u8]) -> Stepped
    ensures { taken_of result ≡ taken t (framed f) (record { mask = mask; bytes = bytes.now }) s }
{
    if !legal(t) {
        return refuse(Refusal::NotLegal, s);
    }
    if !frame_passes(t, f) {
        return refuse(Refusal::Frame, s);
    }
    let all = prepare(t);
    let d = domain_at(f, s.clock);
    let p = narrow(t, all, d);
    step_over(t, p, s, mask, bytes)
}
