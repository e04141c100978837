// Tables and states with one thing wrong.
use dice::{any, below, seldom};
use scheduler::State;
use table::{Table, Thread};

// What is wrong with a table.
#[derive(Clone, Copy, Debug, PartialEq, Eq)]
pub enum TableDamage {
    Domains,
    Threads,
    // a bit or two of a row turned
    RowBits,
    UnusedRow,
    PriorityTwice,
    // a field just past its range
    PastRange,
    // a field of any value
    AnyValue,
    UnusedPlace,
    // a version or a kind that there is not
    Misfit,
}

impl TableDamage {
    pub const ALL: [TableDamage; 9] = [
        TableDamage::Domains,
        TableDamage::Threads,
        TableDamage::RowBits,
        TableDamage::UnusedRow,
        TableDamage::PriorityTwice,
        TableDamage::PastRange,
        TableDamage::AnyValue,
        TableDamage::UnusedPlace,
        TableDamage::Misfit,
    ];

    // One of them, by draw k.
    pub fn any(seed: u64, k: u32) -> TableDamage {
        let all = TableDamage::ALL;
        all[below(seed, k, 9u32) as usize % 9]
    }
}

// What is wrong with a state.
#[derive(Clone, Copy, Debug, PartialEq, Eq)]
pub enum StateDamage {
    // a rest above the budget, or a rest of execution above its share
    Rest,
    // a count above the clock
    Count,
    // a clock above the last
    PastClock,
    LastClock,
    UnusedPlace,
    // too many steps since release
    Since,
}

impl StateDamage {
    pub const ALL: [StateDamage; 6] = [
        StateDamage::Rest,
        StateDamage::Count,
        StateDamage::PastClock,
        StateDamage::LastClock,
        StateDamage::UnusedPlace,
        StateDamage::Since,
    ];
}

// A number that no table has, or one more or less than this.
fn count(seed: u64, n: u8) -> u8 {
    match below(seed, 1, 4u16) {
        0 => 0,
        1 => any::<u8>(seed, 2) | 64,
        2 => n.wrapping_add(1),
        _ => n.wrapping_sub(1),
    }
}

// A bit or two turned of row i: its own, or others of so many. With two turned several pairs may be missing.
fn row(seed: u64, row: u16, i: u8, bits: u8) -> u16 {
    let j = if seldom(seed, 3, 4) {
        i
    } else {
        below(seed, 4, bits)
    };
    let k = below(seed, 15, bits);
    let second = if seldom(seed, 16, 2) {
        0
    } else {
        1u16 << k % 16
    };
    row ^ 1u16 << j % 16 ^ second
}

// A field just past its range.
fn past(seed: u64, f: Thread, domains: u8) -> Thread {
    let mut u = f;
    match below(seed, 5, 9u16) {
        0 => u.domain = domains,
        1 => u.period = 0,
        2 => u.period = 60001,
        3 => u.offset = f.period,
        4 => u.budget = 0,
        5 => u.budget = f.period.wrapping_add(1),
        6 => u.deadline = f.budget.wrapping_sub(1),
        7 => u.deadline = f.period.wrapping_add(1),
        _ => u.blocking = f.budget.wrapping_add(1),
    }
    u
}

// A field of any value.
fn changed(seed: u64, f: Thread, value: u16) -> Thread {
    let mut u = f;
    match below(seed, 6, 8u16) {
        0 => u.domain = (value % 256) as u8,
        1 => u.priority = (value % 256) as u8,
        2 => u.period = value,
        3 => u.offset = value,
        4 => u.budget = value,
        5 => u.deadline = value,
        6 => u.blocking = value,
        _ => u.kind = (value % 256) as u8,
    }
    u
}

// A version that there is not, or a thread of no kind: a kind of 2, an event thread with an offset, or one in version 1.
fn misfit(seed: u64, t: Table, i: u8, f: Thread) -> Table {
    let mut u = t;
    let mut g = f;
    match below(seed, 18, 5u16) {
        0 => u.version = 0,
        1 => u.version = 3,
        2 => g.kind = 2,
        3 => {
            u.version = 2;
            g.kind = 1;
            g.offset = 1;
        }
        _ => {
            u.version = 1;
            g.kind = 1;
            g.offset = 0;
        }
    }
    u.threads[i as usize % 32] = g;
    u
}

// A place from the first unused one to the last; the last where there is none.
fn unused(seed: u64, used: u8, places: u8) -> u8 {
    used.wrapping_add(below(seed, 7, places.wrapping_sub(used)))
}

fn with_row(t: Table, i: u8, row: u16) -> Table {
    let mut u = t;
    u.rows[i as usize % 16] = row;
    u
}

fn with_thread(t: Table, i: u8, f: Thread) -> Table {
    let mut u = t;
    u.threads[i as usize % 32] = f;
    u
}

pub fn table(seed: u64, t: Table, damage: TableDamage) -> Table {
    let d = below(seed, 8, t.domains);
    let bits = if seldom(seed, 17, 4) { 16 } else { t.domains };
    let e = unused(seed, t.domains, 16);
    let i = below(seed, 9, t.count);
    let j = below(seed, 10, t.count);
    let n = unused(seed, t.count, 32);
    let f = t.threads[i as usize % 32];
    let again = Thread {
        priority: f.priority,
        ..t.threads[j as usize % 32]
    };
    let mut u = t;
    match damage {
        TableDamage::Domains => u.domains = count(seed, t.domains),
        TableDamage::Threads => u.count = count(seed, t.count),
        TableDamage::RowBits => {
            u = with_row(t, d, row(seed, t.rows[d as usize % 16], d, bits));
        }
        TableDamage::UnusedRow => u = with_row(t, e, row(seed, 0, e, 16)),
        TableDamage::PriorityTwice => u = with_thread(t, j, again),
        TableDamage::PastRange => u = with_thread(t, i, past(seed, f, t.domains)),
        TableDamage::AnyValue => u = with_thread(t, i, changed(seed, f, any(seed, 11))),
        TableDamage::UnusedPlace => {
            u = with_thread(t, n, changed(seed, table::no_thread(), 1));
        }
        TableDamage::Misfit => u = misfit(seed, t, i, f),
    }
    u
}

// More steps since release than a thread may have: P where it is released by events, none where it is periodic.
fn too_long(f: Thread, much: bool) -> u16 {
    if much {
        return 65535;
    }
    if f.kind == 1 {
        return f.period.wrapping_add(1);
    }
    1
}

pub fn state(seed: u64, t: Table, s: State, damage: StateDamage) -> State {
    let much = seldom(seed, 12, 2);
    let i = if damage == StateDamage::UnusedPlace {
        unused(seed, t.count, 32)
    } else {
        below(seed, 13, t.count)
    };
    let f = t.threads[i as usize % 32];
    let mut u = s;
    let p = &mut u.threads[i as usize % 32];
    match damage {
        StateDamage::Rest => if seldom(seed, 15, 2) {
            let share = f.budget.wrapping_sub(f.blocking);
            p.execution = if much { 65535 } else { share.wrapping_add(1) };
        } else {
            p.rest = if much {
                65535
            } else {
                f.budget.wrapping_add(1)
            };
        },
        StateDamage::Count => p.ran = if much {
            4294967295
        } else {
            s.clock.wrapping_add(1)
        },
        StateDamage::PastClock => u.clock = if much { 4294967295 } else { 1000000001 },
        StateDamage::LastClock => u.clock = 1000000000,
        StateDamage::UnusedPlace => match below(seed, 14, 5u16) {
            0 => p.rest = 1,
            1 => p.finished = true,
            2 => p.execution = 1,
            3 => p.since = 1,
            _ => p.ran = 1,
        },
        StateDamage::Since => p.since = too_long(f, much),
    }
    u
}
