// Random frames that pass with a table, and some with one thing wrong.
use dice::{any, below, between, part, seldom};
use scheduler::{Frame, Window};
use table::Table;

// Mostly a few windows, sometimes every place taken.
fn size(seed: u64) -> u8 {
    match below(seed, 1, 8u16) {
        0 => 64,
        1 => below(seed, 2, 64u8).wrapping_add(1),
        _ => below(seed, 2, 6u8).wrapping_add(1),
    }
}

// The longest window of a frame: mostly short, so that a run of a few steps comes to several.
fn longest(seed: u64) -> u16 {
    match below(seed, 3, 8u16) {
        0 => 60000,
        1 => 200,
        2 | 3 => 3,
        _ => 12,
    }
}

fn window(seed: u64, k: u8, domains: u8) -> Window {
    let own = part(seed, k as u32 + 100);
    let most = longest(seed);
    Window {
        domain: below(own, 4, domains),
        length: if seldom(own, 5, 8) {
            most
        } else {
            between(own, 6, 1, most)
        },
    }
}

// What stands past the last window of a frame: zeros, or what no window may hold, since nobody judges it.
fn past_the_last(seed: u64) -> Window {
    if seldom(seed, 7, 2) {
        return Window {
            domain: 0,
            length: 0,
        };
    }
    Window {
        domain: any::<u8>(seed, 8) | 16,
        length: any::<u16>(seed, 9) | 61440,
    }
}

// A frame that passes.
pub fn frame(seed: u64, t: Table) -> Frame {
    let count = size(seed);
    let mut windows = [past_the_last(seed); 64];
    for (k, place) in (0..count).zip(&mut windows) {
        *place = window(seed, k, t.domains);
    }
    Frame { count, windows }
}

// The first window, the last or any between.
fn some_place(seed: u64, count: u8) -> u8 {
    match below(seed, 10, 4u16) {
        0 => 0,
        1 => count.wrapping_sub(1),
        _ => below(seed, 11, count),
    }
}

// Mostly a frame that passes; seldom with a number of windows that no frame has, or in a window in use a domain that the table lacks or
// a length out of range.
pub fn any_frame(seed: u64, t: Table) -> Frame {
    let mut f = frame(seed, t);
    let k = some_place(seed, f.count);
    let w = &mut f.windows[k as usize % 64];
    match below(seed, 12, 48u16) {
        0 => f.count = 0,
        1 => f.count = 65,
        2 => f.count = 255,
        3 => w.domain = t.domains,
        4 => w.domain = any::<u8>(seed, 13) | 16,
        5 => w.length = 0,
        6 => w.length = 60001,
        7 => w.length = 65535,
        _ => {}
    }
    f
}
