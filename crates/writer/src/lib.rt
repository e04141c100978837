// Writing a table into a lent buffer, from a place that the caller names.
#![tactic(auto)]

ghost use Rattle.std.specs.Prelude.{◌≡◌};
ghost use Rattle.writer.specs.Writer.{told, writing, written};

use basis::Refusal;
use table::{Table, legal};

mod put;
mod size;

use put::put_table;
pub use put::write_numbers;
use size::table_size;

// A legal table, written from the place at on; the answer is the place after it. Refuses with 11, 16.
pub fn write(t: Table, buf: &mut [u8], at: usize) -> Result<usize, Refusal>
    ensures { (told result ≡ writing buf.old at t) × (buf.new ≡ written buf.old at t) }
{
    if !legal(t) {
        return Err(Refusal::NotLegal);
    }
    let size = table_size(t);
    let len = buf.len();
    if len < at {
        return Err(Refusal::NoRoom);
    }
    if len - at < size {
        return Err(Refusal::NoRoom);
    }
    let next = put_table(buf, at, t);
    Ok(next)
}
