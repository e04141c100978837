// A sentence in a lent buffer.
ghost use Rattle.std.specs.Prelude.{◌≡◌, ◌≢◌, ◌<◌, ◌≤◌, ◌+◌, ◌++◌, ◌↔◌, ℕ, List, [], length, take, drop, IsOk, OnErr, IfSome};

use std::fmt;
use std::fmt::{Display, Write};
use std::marker::Model;

// A sentence, and how many bytes it has: an array by value for want of a heap, since a lent buffer is written only once it is whole.
#[derive(Drop)]
struct Page {
    bytes: [u8; 512],
    len: usize,
}

// A page is its text.
impl Model for Page {
    ghost Value = { List ℕ };

    ghost view = { λ p. take p.len p.bytes };

    ghost invariant = { λ p. p.len ≤ 512 };
}

impl Page {
    fn new() -> Page
        ensures { result ≡ [] }
    {
        Page {
            bytes: [0u8; 512],
            len: 0,
        }
    }

    fn text(&self) -> &[u8]
        ensures { result.now ≡ self.now }
    {
        &self.bytes[..self.len]
    }
}

// A text for which there is no room is left out.
impl Write for Page {
    ghost write_str_gives = { λ p text q. q ≡ p ++ text };

    fn write_str(&mut self, text: &str) -> fmt::Result
        ensures ok { IsOk result → self.new ≡ self.old ++ text.now }
        ensures fits { IsOk result ↔ (length self.old + length text.now ≤ 512) }
        ensures err { OnErr result (self.new ≡ self.old) }
    {
        let bytes = text.as_bytes();
        if 512 - self.len < bytes.len() {
            return Err(fmt::Error);
        }
        let end = self.len + bytes.len();
        self.bytes[self.len..end].copy_from_slice(bytes);
        self.len = end;
        Ok(())
    }
}

// A text at the front of a buffer, and the place behind it; nothing, and 0, where there is too little room.
fn lay(out: &mut [u8], text: &[u8]) -> usize
    ensures fits { length text.now ≤ length out.old → result ≡ length text.now }
    ensures text { result ≢ 0 → take result out.new ≡ text.now }
    ensures room { result ≤ length out.new }
    ensures rest { drop result out.new ≡ drop result out.old }
{
    let end = text.len();
    if out.len() < end {
        return 0;
    }
    out[..end].copy_from_slice(text);
    end
}

// The sentence from the start on, and the place behind it; nothing, and 0, where there is too little room.
pub fn put<D: Display + Drop>(out: &mut [u8], sentence: D) -> usize
    ensures text { IfSome (D.output sentence) (λ text. result ≢ 0 → take result out.new ≡ text) }
    ensures room { result ≤ length out.new }
    ensures rest { drop result out.new ≡ drop result out.old }
{
    let mut page = Page::new();
    match write!(page, "{sentence}") {
        Ok(()) => lay(out, page.text()),
        Err(_) => 0,
    }
}
