// A repeating frame of windows: whether it passes with a table, and in which window a clock falls.
#![tactic(auto)]

ghost use Rattle.std.specs.Prelude.{◌≡◌, ◌≤◌};
ghost use Rattle.basis.specs.Tests.{every};
ghost use Rattle.frame.specs.Frame.{window, window_ok, frame_ok, frame_length, window_within, window_at, domain_at, Timed};

use table::{Range, Table, in_range};

// How many windows a frame may have, and how many steps a window.
const COUNTS: Range = Range { low: 1, below: 65 };

const LENGTHS: Range = Range {
    low: 1,
    below: 60001,
};

// The domain that a window is of, and how many steps it takes.
#[derive(Clone, Copy, Debug, PartialEq, Eq)]
pub struct Window {
    pub domain: u8,
    pub length: u16,
}

// The first count windows are in use.
#[derive(Clone, Copy, Debug, PartialEq, Eq)]
pub struct Frame {
    pub count: u8,
    pub windows: [Window; 64],
}

// Whether a window passes with a table of so many domains.
#[tactic(auto, unfolding(crate::specs::Frame::window_ok))]
fn window_passes(domains: u8, w: Window) -> bool
    ensures { result ≡ window_ok domains w }
{
    w.domain < domains && in_range(LENGTHS, w.length)
}

fn windows_pass(domains: u8, f: Frame) -> bool
    requires { f.count ≤ 64 }
    ensures { result ≡ every f.count (λ k. window_ok domains (window f k)) }
{
    for k in 0..f.count {
        let w = f.windows[k as usize];
        if !window_passes(domains, w) {
            return false;
        }
    }
    true
}

// Whether a frame passes with a table.
#[tactic(auto, unfolding(crate::specs::Frame::frame_ok))]
pub fn frame_passes(t: Table, f: Frame) -> bool
    ensures { result ≡ frame_ok t f }
{
    in_range(COUNTS, f.count as u16) && windows_pass(t.domains, f)
}

// How many steps a frame takes.
pub fn frame_length(f: Frame) -> u32
    requires { f.count ≤ 64 }
    ensures { result ≡ frame_length f }
{
    let mut length = 0;
    for k in 0..f.count {
        let w = f.windows[k as usize];
        length += w.length as u32;
    }
    length
}

// The window in which a place of the frame falls.
pub fn window_within(f: Frame, place: u32) -> u8
    requires { f.count ≤ 64 }
    ensures { result ≡ window_within f place }
{
    let mut end = 0;
    for k in 0..f.count {
        let w = f.windows[k as usize];
        end += w.length as u32;
        if place < end {
            return k;
        }
    }
    0
}

// The window in which a clock falls.
pub fn window_at(f: Frame, clock: u32) -> u8
    requires { Timed f }
    ensures { result ≡ window_at f clock }
{
    let length = frame_length(f);
    window_within(f, clock % length)
}

// The domain of that window.
pub fn domain_at(f: Frame, clock: u32) -> u8
    requires { Timed f }
    ensures { result ≡ domain_at f clock }
{
    let k = window_at(f, clock);
    let w = f.windows[k as usize];
    w.domain
}
