// Masks of events, as sets of threads: bit i is for thread i.
use table::{Table, Thread};

// The set of thread i alone.
pub fn only(i: u8) -> u32 {
    1u32 << i % 32
}

// Whether a set has thread i.
pub fn has(set: u32, i: u8) -> bool {
    set | only(i) == set
}

// The threads of the table that pass a test.
pub fn threads_that<Test: Fn(Thread) -> bool>(t: Table, passes: Test) -> u32
    requires { Test.IsAlwaysCallable passes }
{
    let mut set = 0;
    for (i, f) in (0..t.count).zip(t.threads) {
        if passes(f) {
            set |= only(i);
        }
    }
    set
}

// The threads of the table that events release.
pub fn event_threads(t: Table) -> u32 {
    threads_that(t, |f| f.kind == 1)
}

// Whether a mask has events of such threads only.
pub fn mask_is_good(t: Table, mask: u32) -> bool {
    let all = event_threads(t);
    all | mask == all
}
