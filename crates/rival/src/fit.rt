// Which states fit a table.
use crate::start::NOTHING;
use scheduler::{Progress, State};
use table::{Table, Thread};

// The last clock.
pub const END: u32 = 1000000000;

// Steps since release are those of event threads, and P at most.
fn since_fits(f: Thread, since: u16) -> bool {
    since == 0 || (f.kind == 1 && since <= f.period)
}

// A rest is at most W, a rest of execution with B at most W, and a count at most the clock.
fn progress_fits(f: Thread, p: Progress, clock: u32) -> bool {
    let share = p.execution as u32 + f.blocking as u32;
    p.rest <= f.budget && share <= f.budget as u32 && p.ran <= clock && since_fits(f, p.since)
}

// A place past the last thread is zero and unmarked.
pub fn fits(t: Table, s: State) -> bool {
    let count = t.count as usize;
    s.clock <= END
        && (s.threads.iter().zip(t.threads).take(count)).all(|(p, f)| progress_fits(f, *p, s.clock))
        && s.threads.iter().skip(count).all(|p| *p == NOTHING)
}
