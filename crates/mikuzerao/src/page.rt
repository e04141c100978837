// Text that is put together before it is written at once.
ghost use Rattle.std.specs.Prelude.{◌≡◌, ◌<◌, ◌≤◌, ◌+◌, ◌++◌, ◌↔◌, ℕ, List, [], length, take, IsOk, OnErr};
ghost use Rattle.report.specs.Lines.{trace_lines};

use std::fmt;
use std::fmt::Write;
use std::marker::Model;

// The text, and how many bytes it has: an array by value, since the program takes no memory of the heap.
#[derive(Drop)]
pub struct Page {
    bytes: [u8; 65536],
    len: usize,
}

// A page is its text.
impl Model for Page {
    ghost Value = { List ℕ };

    ghost view = { λ p. take p.len p.bytes };

    ghost invariant = { λ p. p.len ≤ 65536 };
}

impl Page {
    pub fn new() -> Page
        ensures { result ≡ [] }
    {
        Page {
            bytes: [0u8; 65536],
            len: 0,
        }
    }

    pub fn clear(&mut self)
        ensures { self.new ≡ [] }
    {
        self.len = 0;
    }

    pub fn text(&self) -> &[u8]
        ensures { result.now ≡ self.now }
    {
        &self.bytes[..self.len]
    }

    // The lines of a block as the bench has them, 4,000 at most, of which the first has this clock.
    #[tactic(auto, using(crate::proofs::Fronts::fronted))]
    pub fn put_trace(&mut self, clock: u32, trace: &[u8])
        ensures { clock ≤ 1000000000 → length trace.now ≤ 4000 → self.new ≡ trace_lines clock trace.now }
    {
        if clock <= 1000000000 && trace.len() <= 4000 {
            self.len = report::print_trace(&mut self.bytes, 0, clock, trace);
        }
    }
}

// A text for which there is no room is left out.
impl Write for Page {
    ghost write_str_gives = { λ p text q. q ≡ p ++ text };

    fn write_str(&mut self, text: &str) -> fmt::Result
        ensures ok { IsOk result → self.new ≡ self.old ++ text.now }
        ensures fits { IsOk result ↔ (length self.old + length text.now ≤ 65536) }
        ensures err { OnErr result (self.new ≡ self.old) }
    {
        let bytes = text.as_bytes();
        if 65536 - self.len < bytes.len() {
            return Err(fmt::Error);
        }
        let end = self.len + bytes.len();
        self.bytes[self.len..end].copy_from_slice(bytes);
        self.len = end;
        Ok(())
    }
}
