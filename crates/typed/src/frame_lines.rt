// The lines of a frame: each a domain and a length.
ghost use Rattle.std.specs.Prelude.{◌≡◌, Some};
ghost use Rattle.typed.specs.Fields.{field_of};
ghost use Rattle.typed.specs.FrameLines.{windows_of, no_windows, added, with_domain, with_window, spoilt, window_taken, window_character, windows_fed, windows_read, windows_closed};

use super::characters::{close, ends_line, feed, new_text};
use super::lists::{one_more, stored};
use super::numbers::is_plain;
use super::{End, Field, Windows};
use frame::{Frame, Window};

// The start of the text.
pub fn new_windows() -> Windows
    ensures { windows_of result ≡ no_windows }
{
    let none = Window {
        domain: 0,
        length: 0,
    };
    Windows {
        field: new_text(),
        domain: None,
        bad: false,
        frame: Frame {
            count: 0,
            windows: [none; 64],
        },
    }
}

// A window more; behind the last place none is stored.
#[tactic(auto, unfolding(crate::specs::FrameLines::added, crate::specs::FrameLines::counted_windows))]
fn add(f: Frame, w: Window) -> Frame
    ensures { result ≡ added f w }
{
    Frame {
        count: one_more(f.count, 65),
        windows: stored(f.windows, f.count, w),
    }
}

#[tactic(auto, unfolding(crate::specs::FrameLines::with_domain))]
fn take_domain(w: Windows, f: Field) -> Windows
    ensures { windows_of result ≡ with_domain (windows_of w) (field_of f) }
{
    Windows {
        field: f,
        domain: Some(f.value.min(255) as u8),
        ..w
    }
}

#[tactic(auto, unfolding(crate::specs::FrameLines::with_window, crate::specs::FrameLines::window_of))]
fn take_length(w: Windows, domain: u8, f: Field) -> Windows
    requires { w.domain ≡ Some domain }
    ensures { windows_of result ≡ with_window (windows_of w) (field_of f) }
{
    let window = Window {
        domain,
        length: f.value.min(65535) as u16,
    };
    Windows {
        field: f,
        domain: None,
        frame: add(w.frame, window),
        ..w
    }
}

#[tactic(auto, unfolding(crate::specs::FrameLines::spoilt))]
fn spoil(w: Windows) -> Windows
    ensures { windows_of result ≡ spoilt (windows_of w) }
{
    Windows { bad: true, ..w }
}

// A field that has ended: a number, behind which a comma is due, or, behind a domain, the line's end.
#[tactic(auto, unfolding(crate::specs::FrameLines::window_taken, crate::specs::FrameLines::as_due, crate::specs::FrameLines::due, basis::specs::Tests::pick))]
fn take_ended(w: Windows, f: Field) -> Windows
    ensures { windows_of result ≡ window_taken (windows_of w) (field_of f) }
{
    if !is_plain(f) {
        return spoil(w);
    }
    match (w.domain, f.ended) {
        (None, Some(End::Comma)) => take_domain(w, f),
        (Some(domain), Some(End::Line)) => take_length(w, domain, f),
        _ => spoil(w),
    }
}

// The line's field, one character further; rows have the like (`row_line.rt` says why there is no trait).
#[tactic(auto, unfolding(crate::specs::FrameLines::window_character, crate::specs::FrameLines::with_field, basis::specs::Tests::pick))]
fn take_field(w: Windows, f: Field) -> Windows
    ensures { windows_of result ≡ window_character (windows_of w) (field_of f) }
{
    match f.ended {
        Some(_) => take_ended(w, f),
        None => Windows { field: f, ..w },
    }
}

// One character more of the text.
#[tactic(auto, unfolding(crate::specs::FrameLines::windows_fed, basis::specs::Tests::pick))]
pub fn feed_windows(w: Windows, b: u8) -> Windows
    ensures { windows_of result ≡ windows_fed (windows_of w) b }
{
    if w.bad {
        return w;
    }
    take_field(w, feed(w.field, b))
}

// The characters of a part of the text.
#[tactic(auto, using(crate::proofs::LineLaws::windows_next, crate::proofs::LineLaws::windows_end))]
pub fn read_windows(mut w: Windows, part: &[u8]) -> Windows
    ensures { windows_of result ≡ windows_read (windows_of w) part.now }
{
    for b in part {
        w = feed_windows(w, *b);
    }
    w
}

// The end of the text: the last line may lack its end.
#[tactic(auto, unfolding(crate::specs::FrameLines::windows_closed, basis::specs::Tests::pick))]
pub fn close_windows(w: Windows) -> Windows
    ensures { windows_of result ≡ windows_closed (windows_of w) }
{
    if w.bad || ends_line(w.field) {
        return w;
    }
    take_ended(w, close(w.field))
}
