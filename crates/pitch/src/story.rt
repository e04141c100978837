// Three parties on one bench, ten steps of 1 ms a period: the load monitor, which is private, has the first four steps whether it runs
// or waits, the pitch loop runs at 4, 5 and 6, and below it the actuator model.
use super::text::{number, say, signed};
use actuator::{Actuator, Driven};
use example::story;
use scheduler::{Answer, Outcome, State};
use table::Table;

// The monitor runs at the first step of a period, and then waits.
fn monitor_sends(clock: u64) -> u8 {
    if clock % 10 == 0 {
        return 1;
    }
    0
}

// In the first period 10 degrees are wanted; then -20, which is drawn to -5.
fn wanted(clock: u64) -> i64 {
    if clock < 10 {
        return 10000;
    }
    -20000
}

fn say_answer(a: Answer) {
    match a {
        Answer::Ran(i) => {
            say(b"T");
            number(i as u64);
        }
        Answer::IdleFor(i) => {
            say(b"I");
            number(i as u64);
        }
        Answer::Idle => say(b"--"),
    }
}

fn say_outcome(o: Outcome) {
    match o {
        Ok(a) => say_answer(a),
        Err(why) => {
            say(b"refused ");
            number(u8::from(why) as u64);
        }
    }
}

// A line: the clock before the step, the answer, and the position after it in thousandths of a degree.
fn say_step(clock: u64, r: Driven) {
    number(clock);
    say(b" ");
    say_outcome(r.outcome);
    say(b" ");
    signed(r.actuator.position);
    say(b"\n");
}

fn turn(t: Table, s: State, a: Actuator, clock: u64) -> Driven {
    let bytes = [1, 1, monitor_sends(clock)];
    actuator::drive(t, s, a, 0, &bytes, wanted(clock))
}

// Three periods, at most 0.25 degrees a step.
pub fn tell() {
    let t = story();
    let Ok(mut s) = scheduler::fresh(t) else {
        say(b"refused\n");
        return;
    };
    let mut a = actuator::start(0, 250, 0);
    for clock in 0..30u64 {
        let r = turn(t, s, a, clock);
        say_step(clock, r);
        s = r.state;
        a = r.actuator;
    }
}
