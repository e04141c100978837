// Release, by when a thread was last released.
use crate::events::has;
use scheduler::{Progress, State};
use table::{Table, Thread};

// As many whole periods as fit into a length, in steps.
fn whole(length: u32, period: u32) -> u32 {
    if period == 0 {
        return 0;
    }
    length / period * period
}

// When thread f was last released, at a clock not before O: whole periods after O.
fn last_release(f: Thread, now: u32) -> u32 {
    let first = f.offset as u32;
    first.wrapping_add(whole(now.wrapping_sub(first), f.period as u32))
}

// A release sets both rests and clears the finish mark.
fn filled(f: Thread, p: Progress) -> Progress {
    Progress {
        rest: f.budget,
        execution: f.budget.wrapping_sub(f.blocking),
        finished: false,
        ..p
    }
}

// From D steps after the last release on both rests are lost.
fn while_due(f: Thread, p: Progress, last: u32, now: u32) -> Progress {
    if last.wrapping_add(f.deadline as u32) > now {
        return p;
    }
    Progress {
        rest: 0,
        execution: 0,
        ..p
    }
}

fn by_period(f: Thread, p: Progress, now: u32) -> Progress {
    if now < f.offset as u32 {
        return p;
    }
    let last = last_release(f, now);
    if last == now {
        return filled(f, p);
    }
    while_due(f, p, last, now)
}

// Moments of event threads are counted from 60,000 steps before clock 0: no last release is longer ago.
const EARLIER: u32 = 60000;

// So many steps since the last release, P at most, will the next step find. The walk does not ask for them.
fn for_next(f: Thread, p: Progress, last: u32, now: u32) -> Progress {
    let passed = now.wrapping_add(1).wrapping_sub(last);
    let since = u16::try_from(passed).unwrap_or(f.period).min(f.period);
    Progress { since, ..p }
}

// An event releases the thread from P steps after its last release on; one before that is lost.
fn by_event(f: Thread, p: Progress, event: bool, clock: u32) -> Progress {
    let now = clock.wrapping_add(EARLIER);
    let last = now.wrapping_sub(p.since as u32);
    let soonest = last.wrapping_add(f.period as u32);
    if event && soonest <= now {
        return for_next(f, filled(f, p), now, now);
    }
    for_next(f, while_due(f, p, last, now), last, now)
}

fn released(f: Thread, p: Progress, event: bool, clock: u32) -> Progress {
    if f.kind == 0 {
        return by_period(f, p, clock);
    }
    by_event(f, p, event, clock)
}

pub fn release(t: Table, s: State, mask: u32) -> State {
    let mut next = s;
    for (i, f) in (0..t.count).zip(t.threads) {
        let p = &mut next.threads[i as usize % 32];
        *p = released(f, *p, has(mask, i), s.clock);
    }
    next
}
