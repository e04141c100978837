// The numbers judged, from the first on.
use crate::cut::cut;
use crate::form::{field_of, numbers, row_of, thread_of};
use basis::Refusal;
use flow::Gap;
use reader::Fault;
use rival_table::{NO_THREAD, unless};
use table::{Table, Thread};

// The table that has no number yet.
pub const NO_TABLE: Table = Table {
    version: 0,
    domains: 0,
    count: 0,
    rows: [0; 16],
    threads: [NO_THREAD; 32],
};

fn low_byte(v: u16) -> u8 {
    (v % 256) as u8
}

fn with_field(f: Thread, k: usize, v: u16) -> Thread {
    let mut u = f;
    match k {
        0 => u.domain = low_byte(v),
        1 => u.priority = low_byte(v),
        2 => u.period = v,
        3 => u.offset = v,
        4 => u.budget = v,
        5 => u.deadline = v,
        6 => u.blocking = v,
        _ => u.kind = low_byte(v),
    }
    u
}

// The table with number k.
pub fn with_number(t: Table, k: usize, v: u16) -> Table {
    let mut u = t;
    let i = thread_of(t, k) % 32;
    match k {
        0 => u.version = low_byte(v),
        1 => u.domains = low_byte(v),
        2 => u.count = low_byte(v),
        _ => {
            if row_of(k) < t.domains as usize {
                u.rows[row_of(k) % 16] = v;
            } else {
                u.threads[i] = with_field(t.threads[i], field_of(t, k), v);
            }
        }
    }
    u
}

// Whether field k of a thread may have this value; the fields before it are the thread's.
fn is_in_range(f: Thread, domains: u8, k: usize, v: u16) -> bool {
    match k {
        0 => v < domains as u16,
        1 => v <= 255,
        2 => 1 <= v && v <= 60000,
        3 => v < f.period,
        4 => 1 <= v && v <= f.period,
        5 => f.budget <= v && v <= f.period,
        6 => v <= f.budget,
        _ => v == 0 || (v == 1 && f.offset == 0),
    }
}

// Field k of thread i: 8, 9.
fn judge_field(t: Table, i: usize, k: usize, v: u16) -> Result<(), Refusal> {
    let f = t.threads[i % 32];
    unless(is_in_range(f, t.domains, k, v), Refusal::Field)?;
    let held = k == 1 && rival_table::is_held(t.threads, i % 32, f.priority);
    unless(!held, Refusal::PriorityTaken)
}

// Number k, which the table has already.
pub fn judge_number(t: Table, k: usize, v: u16) -> Result<(), Refusal> {
    match k {
        0 => unless(v == 1 || v == 2, Refusal::Version),
        1 => unless(1 <= v && v <= 16, Refusal::Count),
        2 => unless(1 <= v && v <= 32, Refusal::Count),
        _ => {
            if row_of(k) < t.domains as usize {
                let good = rival_table::row_is_good(t.rows, t.domains, (row_of(k) % 16) as u8);
                return unless(good, Refusal::Row);
            }
            judge_field(t, thread_of(t, k), field_of(t, k), v)
        }
    }
}

// After the last row the rows together.
pub fn judge_rows(t: Table, k: usize) -> Result<(), Refusal> {
    if row_of(k).wrapping_add(1) != t.domains as usize {
        return Ok(());
    }
    match rival_table::first_gap(t.rows, t.domains) {
        Some(Gap { a, b, c }) => Err(Refusal::Intransitive { a, b, c }),
        None => Ok(()),
    }
}

// The table with number k, if that number is good and after the last row the rows are.
fn judged(t: Table, k: usize, v: u16) -> Result<Table, Refusal> {
    let u = with_number(t, k, v);
    judge_number(u, k, v)?;
    judge_rows(u, k)?;
    Ok(u)
}

pub fn read(s: &[u8]) -> Result<Table, Fault> {
    let mut t = NO_TABLE;
    for (k, piece) in cut(s).into_iter().enumerate() {
        let place = piece.place;
        if k == numbers(t) {
            if place < s.len() {
                return Err(Fault {
                    why: Refusal::Extra,
                    place,
                });
            }
            return Ok(t);
        }
        t = piece
            .value
            .and_then(|v| judged(t, k, v))
            .map_err(|why| Fault { why, place })?;
    }
    Err(Fault {
        why: Refusal::Extra,
        place: 0,
    })
}
