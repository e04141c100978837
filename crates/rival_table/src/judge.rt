// Which tables are legal.
use crate::relation::{first_gap, rows_are_good};
use table::{Table, Thread};

// What stands in a place that is not in use.
pub const NO_THREAD: Thread = Thread {
    domain: 0,
    priority: 0,
    period: 0,
    offset: 0,
    budget: 0,
    deadline: 0,
    blocking: 0,
    kind: 0,
};

// The ranges of document 01; a priority is always in its range.
fn is_in_ranges(f: Thread, domains: u8) -> bool {
    f.domain < domains
        && 1 <= f.period
        && f.period <= 60000
        && f.offset < f.period
        && 1 <= f.budget
        && f.budget <= f.deadline
        && f.deadline <= f.period
        && f.blocking <= f.budget
}

// A thread is released by its period (0), or by events (1): then its table is in version 2, and it has no offset.
fn is_of_a_kind(f: Thread, version: u8) -> bool {
    f.kind == 0 || (f.kind == 1 && version == 2 && f.offset == 0)
}

// Whether one of the first so many threads has this priority.
pub fn is_held(threads: [Thread; 32], first: usize, priority: u8) -> bool {
    threads.iter().take(first).any(|f| f.priority == priority)
}

fn place_is_good(t: Table, i: usize, f: Thread) -> bool {
    if i >= t.count as usize {
        return f == NO_THREAD;
    }
    is_in_ranges(f, t.domains) && is_of_a_kind(f, t.version) && !is_held(t.threads, i, f.priority)
}

fn places_are_good(t: Table) -> bool {
    t.threads
        .iter()
        .enumerate()
        .all(|(i, f)| place_is_good(t, i, *f))
}

// Version 1 or 2, 1 to 16 domains, 1 to 32 threads.
fn head_is_good(t: Table) -> bool {
    (t.version == 1 || t.version == 2)
        && 1 <= t.domains
        && t.domains <= 16
        && 1 <= t.count
        && t.count <= 32
}

pub fn legal(t: Table) -> bool {
    head_is_good(t)
        && rows_are_good(t.rows, t.domains)
        && first_gap(t.rows, t.domains).is_none()
        && places_are_good(t)
}
