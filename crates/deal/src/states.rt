// Random states that fit a table.
use dice::{below, between, part, seldom};
use scheduler::{Progress, State};
use state::no_progress;
use table::{Table, Thread};

const LATEST: u32 = 1000000000;

// At a release of a thread, at its deadline or beside one of them.
fn clock_about(seed: u64, f: Thread) -> u32 {
    let any = below(seed, 1, LATEST);
    if f.period == 0 {
        return any;
    }
    let release = (any - any % f.period as u32).wrapping_add(f.offset as u32);
    let deadline = release.wrapping_add(f.deadline as u32);
    match below(seed, 2, 5u16) {
        0 | 1 => release,
        2 => deadline,
        3 => deadline.wrapping_sub(1),
        _ => release.wrapping_add(1),
    }
}

// Early, just before the end, or about a thread's release or deadline.
fn clock(seed: u64, t: Table) -> u32 {
    let i = below(seed, 3, t.count);
    let clock = match below(seed, 4, 8u16) {
        0 => below(seed, 5, 40),
        1 => below(seed, 5, 70000),
        2 => (LATEST - 1).wrapping_sub(below(seed, 5, 40)),
        _ => clock_about(seed, t.threads[i as usize % 32]),
    };
    clock.min(LATEST - 1)
}

// None, all or anything between.
fn some_of(seed: u64, k: u32, all: u16) -> u16 {
    match below(seed, k, 4u16) {
        0 => 0,
        1 => all,
        _ => between(part(seed, k), 7, 0, all),
    }
}

// Just released, at the deadline, ready for an event, a step before one of them, or anything between; 0 for a periodic thread.
fn since(seed: u64, f: Thread) -> u16 {
    if f.kind == 0 {
        return 0;
    }
    match below(seed, 16, 8u16) {
        0 => 0,
        1 => f.deadline,
        2 => f.deadline.wrapping_sub(1),
        3 | 4 => f.period,
        5 => f.period.wrapping_sub(1),
        _ => between(seed, 17, 0, f.period),
    }
}

fn progress(seed: u64, f: Thread, clock: u32) -> Progress {
    let ran = below(seed, 8, clock.wrapping_add(1));
    Progress {
        rest: some_of(seed, 6, f.budget),
        execution: some_of(seed, 15, f.budget.wrapping_sub(f.blocking)),
        finished: seldom(seed, 9, 4),
        ran: if seldom(seed, 10, 4) { clock } else { ran },
        since: since(seed, f),
    }
}

pub fn state(seed: u64, t: Table) -> State {
    let clock = clock(seed, t);
    let mut threads = [no_progress(); 32];
    for (i, f) in (0..t.count).zip(t.threads) {
        threads[i as usize % 32] = progress(part(seed, i as u32), f, clock);
    }
    State { clock, threads }
}
