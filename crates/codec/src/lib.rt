// The bytes of a table: reading and writing them, and what joins the two (proofs/RoundTrip.antt, proofs/JudgingLaws.antt).
#![tactic(auto)]

ghost use Rattle.std.specs.Prelude.{◌≡◌};
ghost use Rattle.numeral.specs.NumberRules.{Bytes};
ghost use Rattle.reader.specs.Reader.{reading, read_of};
ghost use Rattle.writer.specs.Writer.{told, writing, written};

use basis::Refusal;
use reader::Fault;
use table::Table;

// A table from all of s, or why it is refused, and where.
pub fn read(s: &[u8]) -> Result<Table, Fault>
    ensures { (read_of result ≡ reading s.now) × Bytes s.now }
{
    reader::read(s)
}

// A legal table, written into buf from the place at on.
pub fn write(t: Table, buf: &mut [u8], at: usize) -> Result<usize, Refusal>
    ensures { (told result ≡ writing buf.old at t) × (buf.new ≡ written buf.old at t) }
{
    writer::write(t, buf, at)
}
