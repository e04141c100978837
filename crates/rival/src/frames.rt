// Windows in a repeating frame, and the threads of a window as a set: bit i is for thread i. The window of a clock is found by going
// back from the frame's end.
use crate::events::threads_that;
use rival_table::flows;
use scheduler::{Frame, Window};
use table::Table;

fn window_is_good(w: Window, domains: u8) -> bool {
    w.domain < domains && w.length != 0 && w.length <= 60000
}

// 1 to 64 windows, and each of them is good; a place past them may hold anything.
pub fn frame_is_good(t: Table, f: Frame) -> bool {
    let mut windows = f.windows.iter().take(f.count as usize);
    f.count != 0 && f.count <= 64 && windows.all(|w| window_is_good(*w, t.domains))
}

// So many steps does a frame take in all.
fn frame_steps(f: Frame) -> u32 {
    let windows = f.windows.iter().take(f.count as usize);
    windows.fold(0u32, |sum, w| sum.wrapping_add(w.length as u32))
}

// So many steps of its frame are still to come at a clock, that of the clock counted.
fn to_come(f: Frame, clock: u32) -> u32 {
    let all = frame_steps(f);
    all.wrapping_sub(clock.checked_rem(all).unwrap_or(0))
}

// Whose window it is with so many steps to come: the foremost window that has fewer steps behind it.
fn owner(f: Frame, to_come: u32) -> u8 {
    let mut domain = 0;
    let mut behind = 0u32;
    for w in f.windows.iter().take(f.count as usize).rev() {
        if behind < to_come {
            domain = w.domain;
        }
        behind = behind.wrapping_add(w.length as u32);
    }
    domain
}

// The threads that a walk goes over at a clock: those of every domain that the window's may flow to.
pub fn threads_at(t: Table, f: Frame, clock: u32) -> u32 {
    let domain = owner(f, to_come(f, clock));
    threads_that(t, |thread| flows(t.rows, domain, thread.domain))
}
