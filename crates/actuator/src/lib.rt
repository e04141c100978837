// The actuator above the scheduler: one call makes the scheduler's step and the actuator's move.
#![tactic(auto)]

ghost use Rattle.std.specs.Prelude.{◌≡◌};
ghost use Rattle.basis.specs.Refusals.{refused_by};
ghost use Rattle.actuator.specs.Motion.{start as the-start};
ghost use Rattle.frame.specs.Mode.{unframed, framed};
ghost use Rattle.scheduler.specs.Taken.{taken_of};
ghost use Rattle.actuator.specs.Drive.{follows, driven, drove_of};

use basis::Refusal;
use scheduler::{Frame, Outcome, State, Stepped, step, step_in_frame};
use table::Table;

mod motion;

use motion::{is_ranged, move_to, stand};

// Position and last command in thousandths of a degree, the most that a step moves, and the pitch thread.
#[derive(Clone, Copy, Debug, PartialEq, Eq)]
pub struct Actuator {
    pub position: i32,
    pub command: i32,
    pub rate: u32,
    pub thread: u8,
}

// On a refusal the state and the actuator are those that were handed in.
#[derive(Clone, Copy, Debug, PartialEq, Eq)]
pub struct Driven {
    pub outcome: Outcome,
    pub state: State,
    pub actuator: Actuator,
}

// The actuator before the first step. Numbers outside their range are refused by each call that is handed it.
#[tactic(auto, using(std::proofs::lemmas::Int::ints), unfolding(crate::specs::Motion::start))]
pub fn start(position: i32, rate: u32, thread: u8) -> Actuator
    ensures { result ≡ the-start position rate thread }
{
    Actuator {
        position,
        command: position,
        rate,
        thread,
    }
}

fn refuse(why: Refusal, s: State, a: Actuator) -> Driven
    ensures { drove_of result ≡ record { told = refused_by why; state = s; actuator = a } }
{
    Driven {
        outcome: Err(why),
        state: s,
        actuator: a,
    }
}

// The move that follows a step, or its refusal: the step's own, 15, 20, or the answer with the next state and actuator.
#[tactic(auto, using(std::proofs::lemmas::Int::ints, crate::proofs::DriveLaws::moving), unfolding(crate::specs::Drive::follows, basis::specs::Tests::pick))]
fn follow(t: Table, s: State, a: Actuator, command: i64, r: Stepped) -> Driven
    ensures { drove_of result ≡ follows t command s a (taken_of r) }
{
    match r.outcome {
        Ok(answer) => {
            if t.count <= a.thread {
                return refuse(Refusal::Missing, s, a);
            }
            if !is_ranged(a) {
                return refuse(Refusal::Actuator, s, a);
            }
            let next = r.state;
            let c = stand(a, answer, command);
            Driven {
                outcome: Ok(answer),
                state: next,
                actuator: move_to(a, c),
            }
        }
        Err(why) => refuse(why, s, a),
    }
}

// One step and one move: the step's own refusals, 15, 20, or the answer with the next state and actuator.
#[tactic(auto, using(std::proofs::lemmas::Int::ints), unfolding(crate::specs::Drive::driven))]
pub fn drive(t: Table, s: State, a: Actuator, mask: u32, bytes: &[u8], command: i64) -> Driven
    ensures { drove_of result ≡ driven t unframed (record { input = record { mask = mask; bytes = bytes.now }; command = command }) s a }
{
    let r = step(t, s, mask, bytes);
    follow(t, s, a, command, r)
}

// The same in a frame.
#[tactic(auto, using(std::proofs::lemmas::Int::ints), unfolding(crate::specs::Drive::driven))]
pub fn drive_in_frame(
    t: Table,
    f: Frame,
    s: State,
    a: Actuator,
    mask: u32,
    bytes: &[u8],
    command: i64,
) -> Driven
    ensures { drove_of result ≡ driven t (framed f) (record { input = record { mask = mask; bytes = bytes.now }; command = command }) s a }
{
    let r = step_in_frame(t, f, s, mask, bytes);
    follow(t, s, a, command, r)
}
