// What document 01 knows by hand and asks to be run: K-11 and K-12.
#![tactic(auto)]

use basis::Refusal;
use reader::Fault;
use scheduler::Outcome;
use table::Table;

// Example E, read from its bytes.
fn example() -> Result<Table, Refusal> {
    let r = codec::read(
        b"\x01\x02\x02\x03\x02\x01\x1E\x0A\x00\x04\x0A\x02\x00\x14\x0A\x00\x03\x0A\x00",
    );
    r.map_err(|fault| fault.why)
}

// A step of example E from a fresh state but for its clock, without an event and both threads sending 1.
fn step_at(clock: u32) -> Outcome {
    let t = example()?;
    let mut s = scheduler::fresh(t)?;
    s.clock = clock;
    let r = scheduler::step(t, s, 0, b"\x01\x01");
    r.outcome
}

fn say(what: &[u8], ok: bool) {
    io::write_all(1, what);
    if ok {
        io::write_all(1, b" ok\n");
    } else {
        io::write_all(1, b" wrong\n");
    }
}

fn main() {
    say(b"K-11: clock 999,999,999 steps", step_at(999999999).is_ok());
    say(
        b"K-11: clock 1,000,000,000 gives 14",
        step_at(1000000000).is_err_and(|why| u8::from(why) == 14),
    );
    say(
        b"K-12: no bytes at all give 1 at place 0",
        codec::read(b"").is_err_and(|Fault { why, place }| u8::from(why) == 1 && place == 0),
    );
}
