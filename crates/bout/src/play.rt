// Both sides play, and the kind of what they say is told where they agree.
use crate::Kind;
use basis::Refusal;
use dice::below;
use scheduler::{Answer, Frame, Outcome, Progress, State, Stepped};
use table::{Mark, Table, Thread};
use tally::agreed;

// What a step or a block gave, by its kind, and the state after it.
#[derive(Clone, Copy, Debug, PartialEq, Eq)]
pub struct Played {
    pub kind: Option<Kind>,
    pub state: State,
}

fn kind_of(o: Outcome, framed: bool) -> Kind {
    match o {
        Err(why) => Kind::Refused(why),
        Ok(Answer::Ran(_)) => Kind::Ran { framed },
        Ok(Answer::IdleFor(_)) => Kind::IdleFor { framed },
        Ok(Answer::Idle) => Kind::Idle { framed },
    }
}

// The proved side.
fn ours(t: Table, frame: Option<Frame>, s: State, mask: u32, bytes: &[u8]) -> Stepped {
    match frame {
        Some(f) => scheduler::step_in_frame(t, f, s, mask, bytes),
        None => scheduler::step(t, s, mask, bytes),
    }
}

// A step with the events of a mask on the first n bytes, in the frame if there is one. A refused one hands back the state that it was
// given.
pub fn step(t: Table, frame: Option<Frame>, s: State, mask: u32, all: &[u8], n: u8) -> Played {
    let bytes = &all[..all.len().min(n as usize)];
    let got = ours(t, frame, s, mask, bytes);
    let unmoved = got.outcome.is_ok() || got.state == s;
    let same = unmoved && got == rival::step(t, frame, s, mask, bytes);
    Played {
        kind: same.then_some(kind_of(got.outcome, frame.is_some())),
        state: got.state,
    }
}

// What becomes of thread i's event in a step that is made, if it has one: the thread is released, or the event came too early.
pub fn event(f: Thread, p: Progress, mask: u32, i: u8) -> Option<Kind> {
    if mask >> i % 32 & 1 == 0 {
        return None;
    }
    Some(if p.since < f.period {
        Kind::Lost
    } else {
        Kind::Released
    })
}

// The state before the first step.
pub fn fresh(t: Table) -> Option<Kind> {
    agreed(scheduler::fresh(t), rival::fresh(t), |fresh| {
        if fresh.is_ok() {
            Kind::Started
        } else {
            Kind::Unstarted
        }
    })
}

// A number of bytes that is often not the number of threads.
pub fn some_length(seed: u64, count: u8) -> u8 {
    match below(seed, 60, 6u16) {
        0 => 0,
        1 => count.wrapping_add(1),
        2 => below(seed, 61, 40),
        _ => count,
    }
}

fn kind_of_marks(marks: Result<[Mark; 32], Refusal>) -> Kind {
    match marks {
        Err(_) => Kind::NotLegal,
        Ok(marks) => {
            if marks.iter().any(|mark| mark.is_some()) {
                Kind::Marked
            } else {
                Kind::Unmarked
            }
        }
    }
}

// The marks, and whether the table is legal.
pub fn marks(t: Table) -> Option<Kind> {
    let ours = table::marks(t);
    if ours.is_ok() != table::legal(t) {
        return None;
    }
    agreed(ours, rival_table::marks(t), kind_of_marks)
}
