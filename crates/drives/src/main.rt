// Random drives, some of them damaged, each compared with what the second actuator gives.
#![tactic(auto)]

use actuator::{Actuator, Driven};
use basis::Refusal;
use dice::{below, part, seldom};
use example::{example, story};
use rival_actuator::{Call, agrees};
use scheduler::{Answer, Outcome, State};
use table::Table;
use tally::{Tally, WRONG, count, count_agreed, line};

// A command: an end of its type, an end of the range, one beyond it, or some number near the range.
fn command(seed: u64) -> i64 {
    match below(seed, 1, 12u16) {
        0 => -9223372036854775808,
        1 => 9223372036854775807,
        2 => -5001,
        3 => -5000,
        4 => 95000,
        5 => 95001,
        _ => near(part(seed, 2)),
    }
}

// From -10,000 to 109,999.
fn near(dice: u64) -> i64 {
    (dice % 120000) as i64 - 10000
}

// A start position: an end of its type, one beyond the range, or some number of the range.
fn place(seed: u64) -> i32 {
    match below(seed, 3, 96u16) {
        0 => -2147483648,
        1 => 2147483647,
        2 => -5001,
        3 => 95001,
        _ => within(part(seed, 4)),
    }
}

// From -5,000 to 95,000.
fn within(dice: u64) -> i32 {
    (dice % 100001) as i32 - 5000
}

fn rate(seed: u64) -> u32 {
    match below(seed, 5, 64u16) {
        0 => 0,
        1 => 1001,
        2 => 4294967295,
        3 => 1,
        4 => 1000,
        _ => 1 + below(seed, 6, 1000u16) as u32,
    }
}

fn thread(seed: u64) -> u8 {
    match below(seed, 7, 96u16) {
        0 => 3,
        1 => 255,
        _ => below(seed, 8, 3),
    }
}

// The story with a load monitor that wakes when the safety chain reports: thread 2 is of event kind.
fn reported() -> Table {
    let mut t = story();
    t.version = 2;
    t.threads[2].kind = 1;
    t
}

fn table(seed: u64) -> Table {
    if seldom(seed, 9, 3) {
        return example();
    }
    if seldom(seed, 13, 2) {
        return reported();
    }
    story()
}

// The mask of a step: where the monitor wakes by events, one step in four has one.
fn mask(version: u8, seed: u64) -> u32 {
    if version == 1 {
        return 0;
    }
    if seldom(seed, 14, 4) {
        return 4;
    }
    0
}

// The byte of thread i: mostly run, else wait, finish or a strange one.
fn byte(seed: u64, i: u32) -> u8 {
    match below(part(seed, 12), i, 8u16) {
        0 => 0,
        1 => 2,
        2 => 3,
        _ => 1,
    }
}

// A call with something wrong in it: one in four. The bytes are one more than any of the tables asks for.
fn harmed<'a>(seed: u64, call: Call<'a>, bytes: &'a [u8]) -> Option<Call<'a>> {
    if !seldom(seed, 10, 4) {
        return None;
    }
    let mut c = call;
    match below(seed, 11, 18u16) {
        // a table without threads, and one whose first domain does not flow to itself
        0 => c.table.count = 0,
        1 => c.table.rows[0] = 6,
        // a clock past the last, an unused place that is not zero, and the last clock
        2 => c.state.clock = 1000000001,
        3 => c.state.threads[31].rest = 1,
        4 => c.state.clock = 1000000000,
        // no byte, and a byte too many
        5 => c.bytes = b"",
        6 => c.bytes = bytes,
        // no such thread, and a rate of 0
        7 => c.actuator.thread = 200,
        8 => c.actuator.rate = 0,
        // a position or a command one beyond an end, or an end of the type
        9 => c.actuator.position = -5001,
        10 => c.actuator.position = 95001,
        11 => c.actuator.command = 95001,
        12 => c.actuator.command = -2147483648,
        // an event of a periodic thread
        16 => c.mask = 1,
        // two at once: no such thread with a rate, a byte too many as well, or an event of a missing thread; and a rate with the last clock
        13 => {
            c.actuator.thread = 200;
            c.actuator.rate = 1001;
        }
        14 => {
            c.actuator.thread = 200;
            c.actuator.rate = 1001;
            c.bytes = bytes;
        }
        15 => {
            c.actuator.rate = 0;
            c.state.clock = 1000000000;
        }
        _ => {
            c.actuator.thread = 200;
            c.mask = 2147483648;
        }
    }
    Some(c)
}

#[derive(Clone, Copy, Debug, PartialEq, Eq)]
enum Kind {
    Moved,
    // by a command that was taken
    Heard,
    Refused(Refusal),
}

// Where a kind is counted: a refused drive at its number.
impl From<Kind> for u32 {
    fn from(kind: Kind) -> u32 {
        match kind {
            Kind::Moved => 0,
            Kind::Heard => 30,
            Kind::Refused(why) => u8::from(why) as u32,
        }
    }
}

fn kind_of(o: Outcome) -> Kind {
    match o {
        Ok(_) => Kind::Moved,
        Err(why) => Kind::Refused(why),
    }
}

fn drive(c: Call) -> Driven {
    actuator::drive(c.table, c.state, c.actuator, c.mask, c.bytes, c.command)
}

// A drive, and whether it agrees with the second actuator.
fn count_drive(tally: &mut Tally, c: Call, r: Driven) {
    if r.outcome == Ok(Answer::Ran(c.actuator.thread)) {
        count(tally, Kind::Heard);
    }
    count_agreed(tally, agrees(r, c).then_some(kind_of(r.outcome)));
}

// A run under way.
#[derive(Clone, Copy)]
struct Game {
    state: State,
    actuator: Actuator,
}

// One call. A damaged call is made beside the run, which goes on from where it was.
fn round(tally: &mut Tally, t: Table, g: Game, seed: u64) -> Game {
    let bytes = [byte(seed, 0), byte(seed, 1), byte(seed, 2), 1];
    let whole = Call {
        table: t,
        state: g.state,
        actuator: g.actuator,
        mask: mask(t.version, seed),
        bytes: if t.count == 2 {
            &bytes[..2]
        } else {
            &bytes[..3]
        },
        command: command(seed),
    };
    if let Some(c) = harmed(seed, whole, &bytes) {
        count_drive(tally, c, drive(c));
        return g;
    }
    let r = drive(whole);
    count_drive(tally, whole, r);
    Game {
        state: r.state,
        actuator: r.actuator,
    }
}

// A run of 30 calls.
fn play(tally: &mut Tally, seed: u64) {
    let t = table(seed);
    let Ok(state) = scheduler::fresh(t) else {
        count(tally, WRONG);
        return;
    };
    let actuator = actuator::start(place(seed), rate(seed), thread(seed));
    let mut g = Game { state, actuator };
    for k in 0..30u32 {
        g = round(tally, t, g, part(seed, k));
    }
}

fn report(tally: &Tally) {
    line(
        tally,
        Kind::Moved,
        b" drives moved, as a second actuator does\n",
    );
    line(tally, Kind::Heard, b" took a command\n");
    line(
        tally,
        Kind::Refused(Refusal::NotLegal),
        b" refused with 11\n",
    );
    line(
        tally,
        Kind::Refused(Refusal::NotFitting),
        b" refused with 12\n",
    );
    line(
        tally,
        Kind::Refused(Refusal::StepBytes),
        b" refused with 13\n",
    );
    line(
        tally,
        Kind::Refused(Refusal::LastClock),
        b" refused with 14\n",
    );
    line(
        tally,
        Kind::Refused(Refusal::Missing),
        b" refused with 15\n",
    );
    line(
        tally,
        Kind::Refused(Refusal::EventMask),
        b" refused with 18\n",
    );
    line(
        tally,
        Kind::Refused(Refusal::Actuator),
        b" refused with 20\n",
    );
    line(tally, WRONG, b" disagreements\n");
}

// 600 runs of 30 drives.
fn main() {
    let mut tally = [0u32; 64];
    for run in 0..600u32 {
        play(&mut tally, part(4, run));
    }
    report(&tally);
}
