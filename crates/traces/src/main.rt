// Random traces of random tables, some with a byte that names no thread: the cleanings of each are listed, and found a second time by looking
// back from each step. Prints how many of each kind there were, and last how often the two disagreed.
#![tactic(auto)]

mod kind;

use basis::Refusal;
use dice::{any, below, part, seldom};
use kind::Kind;
use table::{Table, Thread, no_thread};
use tally::{Tally, WRONG, count, line};

// Each domain has two ranks, and may flow to those that are below it in neither: so the policy is transitive.
fn may(seed: u64, d: u8, e: u8) -> bool {
    let first: u8 = below(seed, d as u32, 4);
    let second: u8 = below(seed, 16 + d as u32, 4);
    first <= below(seed, e as u32, 4) && second <= below(seed, 16 + e as u32, 4)
}

fn row(seed: u64, d: u8) -> u16 {
    let mut set = 0;
    for e in 0..16u8 {
        if may(seed, d, e) {
            set |= 1u16 << e;
        }
    }
    set
}

fn rows(seed: u64) -> [u16; 16] {
    let mut rows = [0; 16];
    for (d, place) in (0..16).zip(&mut rows) {
        *place = row(seed, d);
    }
    rows
}

fn thread(seed: u64, i: u8) -> Thread {
    Thread {
        domain: below(seed, i as u32, 16),
        priority: i,
        period: 10,
        offset: 0,
        budget: 1,
        deadline: 10,
        blocking: 0,
        kind: 0,
    }
}

fn threads(seed: u64, count: u8) -> [Thread; 32] {
    let mut threads = [no_thread(); 32];
    for (i, place) in (0..count).zip(&mut threads) {
        *place = thread(seed, i);
    }
    threads
}

fn table(seed: u64) -> Table {
    let count = 1 + below(seed, 0, 32) % 32;
    Table {
        version: 1,
        domains: 16,
        count,
        rows: rows(part(seed, 1)),
        threads: threads(part(seed, 2), count),
    }
}

// One step in eight idles, and as many idle for a thread.
fn byte(seed: u64, count: u8) -> u8 {
    let i = below(seed, 0, count) % 32;
    match below(seed, 1, 8u8) {
        0 => 255,
        1 => 32 + i,
        _ => i,
    }
}

// One trace in eight has some byte at some step.
fn harmed(seed: u64, trace: [u8; 160]) -> [u8; 160] {
    let mut h = trace;
    if seldom(seed, 0, 8) {
        h[below(seed, 1, 160u16) as usize % 160] = any(seed, 2);
    }
    h
}

fn trace(seed: u64, count: u8) -> [u8; 160] {
    let mut trace = [0; 160];
    for (k, place) in (0..160).zip(&mut trace) {
        *place = byte(part(seed, k), count);
    }
    harmed(part(seed, 200), trace)
}

fn count_kinds(tally: &mut Tally, outcome: Result<usize, Refusal>) {
    match outcome {
        Ok(n) => {
            count(tally, Kind::Listed);
            if n == 0 {
                count(tally, Kind::Clean);
            }
            if 32 <= n {
                count(tally, Kind::Long);
            }
        }
        Err(why) => count(tally, Kind::Refused(why)),
    }
}

fn play(tally: &mut Tally, seed: u64) {
    let t = table(part(seed, 0));
    let trace = trace(part(seed, 1), t.count);
    let trace = &trace[..below(seed, 2, 161u16) as usize % 161];
    let first = listed::make_list(t, trace);
    if first == rival_cleaning::make_list(t, trace) {
        count_kinds(tally, first.outcome);
    } else {
        count(tally, WRONG);
    }
}

fn report(tally: &Tally) {
    line(
        tally,
        Kind::Listed,
        b" traces with the cleanings that a second reading finds\n",
    );
    line(tally, Kind::Clean, b" of them with none\n");
    line(tally, Kind::Long, b" of them with 32 or more\n");
    line(tally, Kind::Refused(Refusal::NoRoom), b" refused with 16\n");
    line(
        tally,
        Kind::Refused(Refusal::TraceByte),
        b" refused with 21\n",
    );
    line(tally, WRONG, b" disagreements\n");
}

fn main() {
    let mut tally = [0; 64];
    for k in 0..1000 {
        play(&mut tally, part(11, k));
    }
    report(&tally);
}
