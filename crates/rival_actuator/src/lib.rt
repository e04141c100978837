// A second actuator, written apart, for the first to be played against: a height above -5,000 in thousandths of a degree that goes one thousandth at a time.
#![tactic(auto)]

use actuator::{Actuator, Driven};
use basis::Refusal;
use scheduler::{Answer, State};
use table::Table;

// What a drive is given.
#[derive(Clone, Copy)]
pub struct Call<'a> {
    pub table: Table,
    pub state: State,
    pub actuator: Actuator,
    pub mask: u32,
    pub bytes: &'a [u8],
    pub command: i64,
}

// Whether a number lies outside -5,000 to 95,000.
fn is_outside(z: i64) -> bool {
    z < -5000 || 95000 < z
}

// The height of the nearest number of the range.
pub fn height(z: i64) -> u32 {
    if z < -5000 {
        return 0;
    }
    if 95000 < z {
        return 100000;
    }
    (z + 5000) as u32
}

// One thousandth towards the target, as often as the rate says.
fn creep(from: u32, target: u32, rate: u32) -> u32 {
    let mut at = from;
    for _ in 0..rate {
        if at < target {
            at += 1;
        } else if target < at {
            at -= 1;
        }
    }
    at
}

// Why the actuator itself is refused, if it is.
fn refusal(t: Table, a: Actuator) -> Option<Refusal> {
    if t.count <= a.thread {
        return Some(Refusal::Missing);
    }
    let outside = is_outside(a.position as i64) || is_outside(a.command as i64);
    (a.rate == 0 || 1000 < a.rate || outside).then_some(Refusal::Actuator)
}

// The height that the command stands at after this answer.
fn target(c: Call, n: Answer) -> u32 {
    if n == Answer::Ran(c.actuator.thread) {
        return height(c.command);
    }
    height(c.actuator.command as i64)
}

// Whether a position or a command stands at this height.
fn stands_at(z: i32, at: u32) -> bool {
    !is_outside(z as i64) && height(z as i64) == at
}

// Whether an actuator has moved from that of the call as the second one does.
fn has_moved(b: Actuator, c: Call, n: Answer) -> bool {
    let a = c.actuator;
    let to = target(c, n);
    let at = creep(height(a.position as i64), to, a.rate);
    b.rate == a.rate
        && b.thread == a.thread
        && stands_at(b.position, at)
        && stands_at(b.command, to)
}

// Whether a drive is refused for this, and hands back what it was given.
fn is_refused(r: Driven, why: Refusal, c: Call) -> bool {
    r == Driven {
        outcome: Err(why),
        state: c.state,
        actuator: c.actuator,
    }
}

// Whether a drive gives what the step and the second actuator give.
pub fn agrees(r: Driven, c: Call) -> bool {
    let stepped = scheduler::step(c.table, c.state, c.mask, c.bytes);
    match stepped.outcome {
        Err(why) => is_refused(r, why, c),
        Ok(n) => match refusal(c.table, c.actuator) {
            Some(why) => is_refused(r, why, c),
            None => {
                r.outcome == Ok(n) && r.state == stepped.state && has_moved(r.actuator, c, n)
            }
        },
    }
}
