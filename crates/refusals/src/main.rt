// One input for each refusal number, with what the call answers: the number, the call, and the input in words.
#![tactic(auto)]

use actuator::start;
use basis::Refusal;
use cleaning::Cleaning;
use example::example;
use reader::Fault;
use scheduler::{Answer, Frame, State, Window};
use table::{Table, no_thread};

fn no_table() -> Table {
    Table {
        version: 0,
        domains: 0,
        count: 0,
        rows: [0; 16],
        threads: [no_thread(); 32],
    }
}

// Example E in version 2, with thread 1 released by events.
fn waking() -> Table {
    let mut t = example();
    t.version = 2;
    t.threads[1].kind = 1;
    t
}

fn late(s: State, clock: u32) -> State {
    State { clock, ..s }
}

// A state but for thread 0's rest of execution.
fn runaway(mut s: State) -> State {
    s.threads[0].execution = 3;
    s
}

// A state but for a thread's steps since its release.
fn long_since(mut s: State, i: usize, since: u16) -> State {
    s.threads[i % 32].since = since;
    s
}

// A frame that says this count of windows, all of this domain and length.
fn frame(count: u8, domain: u8, length: u16) -> Frame {
    Frame {
        count,
        windows: [Window { domain, length }; 64],
    }
}

fn say(words: &[u8]) {
    io::write_all(1, words);
}

fn say_number(n: u64) {
    io::print_decimal(1, n);
}

// The number that a call was refused with, 0 where it was not, then the call and its input.
fn answers<T: Drop>(r: Result<T, Refusal>, call: &[u8], input: &[u8]) {
    let number = match r {
        Ok(_) => 0,
        Err(why) => u8::from(why),
    };
    say_number(number as u64);
    say(b": ");
    say(call);
    say(b", ");
    say(input);
}

fn line<T: Drop>(r: Result<T, Refusal>, call: &[u8], input: &[u8]) {
    answers(r, call, input);
    say(b"\n");
}

// A reader's answer has a place too, and three domains where it is 7.
fn reads(bytes: &[u8], input: &[u8]) {
    if let Err(Fault { why, place }) = codec::read(bytes) {
        say_number(u8::from(why) as u64);
        say(b" at place ");
        say_number(place as u64);
        if let Refusal::Intransitive { a, b, c } = why {
            say(b" for");
            for d in [a, b, c] {
                say(b" ");
                say_number(d as u64);
            }
        }
    } else {
        say(b"0");
    }
    say(b": read, ");
    say(input);
    say(b"\n");
}

fn steps(t: Table, s: State, mask: u32, bytes: &[u8], input: &[u8]) {
    let r = scheduler::step(t, s, mask, bytes);
    line(r.outcome, b"step", input);
}

fn steps_in(f: Frame, s: State, input: &[u8]) {
    let r = scheduler::step_in_frame(example(), f, s, 0, b"\x01\x01");
    line(r.outcome, b"step_in_frame", input);
}

// A block into a record of four bytes from a place on, in a frame or without one, and whether it handed the state back and wrote no byte.
fn blocks(
    t: Table,
    f: Option<Frame>,
    s: State,
    masks: &[u32],
    bytes: &[u8],
    at: usize,
    input: &[u8],
) {
    let mut record = [7u8; 4];
    let r = match f {
        Some(f) => block::run_at_in_frame(t, f, s, masks, bytes, &mut record, at),
        None => block::run_at(t, s, masks, bytes, &mut record, at),
    };
    answers(r.outcome, b"block", input);
    if r.state == s && record == [7; 4] {
        say(b"; state and record as they were\n");
    } else {
        say(b"; state or record changed\n");
    }
}

// Into 64 places, of which the first tells whether one was written.
fn cleans(t: Table, trace: &[u8], input: &[u8]) {
    let l = listed::make_list(t, trace);
    answers(l.outcome, b"clean", input);
    let unwritten = Cleaning {
        step: 0,
        before: 0,
        after: 0,
    };
    if l.list[0] == unwritten {
        say(b"; list as it was\n");
    } else {
        say(b"; list written\n");
    }
}

fn all_reads() {
    reads(
        b"\x01\x02\x02\x03\x02\x01\x1E\x0A\x00\x04\x0A\x02\x00\x14\x0A\x00\x03\x0A",
        b"example E without its last byte",
    );
    reads(b"\x80\x00", b"the version as 80 00");
    reads(b"\x80\x80\x04", b"the version as 80 80 04");
    reads(b"\x03", b"version 3");
    reads(b"\x01\x00", b"no domains");
    reads(b"\x01\x02\x02\x07", b"two domains, row 0 as 7");
    reads(
        b"\x01\x03\x01\x03\x06\x04",
        b"three domains with rows 3, 6, 4",
    );
    reads(b"\x01\x01\x01\x01\x00\x05\x00", b"a thread with period 0");
    reads(
        b"\x02\x01\x01\x01\x00\x05\x0A\x00\x01\x01\x00\x02",
        b"version 2, a thread of kind 2",
    );
    reads(
        b"\x02\x01\x01\x01\x00\x05\x0A\x03\x01\x01\x00\x01",
        b"version 2, an event thread with offset 3",
    );
    reads(
        b"\x01\x01\x02\x01\x00\x05\x01\x00\x01\x01\x00\x00\x05",
        b"two threads with priority 5",
    );
    reads(
        b"\x01\x02\x02\x03\x02\x01\x1E\x0A\x00\x04\x0A\x02\x00\x14\x0A\x00\x03\x0A\x00\x00",
        b"example E and one byte more",
    );
}

// Each number of a step, and those of the calls between them; s and w are the fresh states of E and of E with events.
fn all_steps(s: State, w: State) {
    let e = example();
    let v = waking();
    line(table::marks(no_table()), b"marks", b"a table of zeros");
    line(scheduler::fresh(no_table()), b"fresh", b"a table of zeros");
    steps(
        e,
        late(s, 1000000001),
        0,
        b"\x01\x01",
        b"example E at clock 1,000,000,001",
    );
    steps(
        e,
        runaway(s),
        0,
        b"\x01\x01",
        b"example E with 3 steps for thread 0 to run, where W - B is 2",
    );
    steps(
        e,
        long_since(s, 0, 1),
        0,
        b"\x01\x01",
        b"example E with 1 step since the release of thread 0, which is periodic",
    );
    steps(
        v,
        long_since(w, 1, 11),
        0,
        b"\x01\x01",
        b"version 2, thread 1 with events: 11 steps since its release, where P is 10",
    );
    steps(e, s, 0, b"\x01", b"example E with one byte");
    steps(
        e,
        late(s, 1000000000),
        0,
        b"\x01\x01",
        b"example E at clock 1,000,000,000",
    );
    line(
        sight::shown(e, 2, Answer::Idle),
        b"shown",
        b"example E, domain 2",
    );
    let mut buf = [0; 18];
    line(
        codec::write(e, &mut buf, 0),
        b"write",
        b"example E into 18 bytes",
    );
    steps(
        v,
        w,
        1,
        b"\x01\x01",
        b"version 2, thread 1 with events: one for thread 0, which is periodic",
    );
    steps(
        v,
        w,
        4,
        b"\x01\x01",
        b"version 2, thread 1 with events: one for thread 2, which is missing",
    );
    steps_in(frame(65, 0, 1), s, b"example E in a frame of 65 windows");
    steps_in(
        frame(1, 2, 1),
        s,
        b"example E in a frame with a window of domain 2",
    );
    steps_in(
        frame(1, 0, 60001),
        s,
        b"example E in a frame with a window of 60,001 steps",
    );
}

// Each number of a block; s is the fresh state of E.
fn all_blocks(s: State) {
    let e = example();
    blocks(
        no_table(),
        None,
        s,
        &[0],
        b"\x01\x01",
        0,
        b"a table of zeros",
    );
    blocks(
        e,
        None,
        late(s, 1000000001),
        &[0],
        b"\x01\x01",
        0,
        b"example E at clock 1,000,000,001",
    );
    blocks(
        e,
        None,
        s,
        &[0],
        b"\x01\x01\x01",
        0,
        b"example E with three bytes",
    );
    blocks(
        e,
        None,
        s,
        &[0],
        b"\x01\x01\x01\x01",
        0,
        b"example E with the bytes of two steps and one mask",
    );
    blocks(
        e,
        None,
        late(s, 999999999),
        &[0, 0],
        b"\x01\x01\x01\x01",
        0,
        b"example E, two steps at clock 999,999,999",
    );
    blocks(
        e,
        None,
        s,
        &[0, 0],
        b"\x01\x01\x01\x01",
        3,
        b"example E, two steps from place 3 of four bytes",
    );
    blocks(
        e,
        None,
        s,
        &[],
        b"",
        5,
        b"example E, no steps from place 5 of four bytes",
    );
    blocks(
        e,
        None,
        s,
        &[0, 1],
        b"\x01\x01\x01\x01",
        0,
        b"example E, an event of thread 0 in the second step",
    );
    blocks(
        e,
        Some(frame(1, 2, 1)),
        s,
        &[0],
        b"\x01\x01",
        0,
        b"example E in a frame with a window of domain 2",
    );
}

fn all_cleans() {
    let e = example();
    cleans(no_table(), b"\x00", b"a table of zeros");
    cleans(e, b"\x00\x01\x02", b"example E with a byte 2");
    cleans(e, b"\x00\x01\x22", b"example E with a byte 34");
    let mut trace = [0; 130];
    for (i, byte) in trace.iter_mut().enumerate() {
        *byte = (i % 2) as u8;
    }
    cleans(e, &trace, b"example E, 65 cleanings into 64 places");
}

// All of them, but that neither fresh state is refused.
fn all() -> Result<(), Refusal> {
    let e = example();
    let s = scheduler::fresh(e)?;
    let w = scheduler::fresh(waking())?;
    all_reads();
    all_steps(s, w);
    all_blocks(s);
    let r = actuator::drive(e, s, start(0, 0, 0), 0, b"\x01\x01", 0);
    line(r.outcome, b"drive", b"example E, an actuator with rate 0");
    all_cleans();
    Ok(())
}

fn main() {
    if let Err(why) = all() {
        line(Err::<(), _>(why), b"fresh", b"example E");
    }
}
