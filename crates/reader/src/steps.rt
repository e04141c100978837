// One number: after a refusal nothing more is read, so the leftmost fault wins.
ghost use Rattle.std.specs.Prelude.{◌≡◌, []};
ghost use Rattle.reader.specs.Reader.{standing, Stands, number_from, judged, ranged};
ghost use Rattle.basis.specs.Refusals.{number, values};

use super::{Cursor, Fault};
use basis::Refusal;
use numeral::{Numeral, read_number};
use table::{Range, in_range};

// The next number.
pub fn next_number(s: &[u8], c: Cursor) -> Result<Cursor, Fault>
    ensures { Stands result (number_from s.now (standing c)) }
{
    let start = c.next;
    match read_number(s, start) {
        Ok(Numeral { value, next }) => Ok(Cursor { start, next, value }),
        Err(why) => Err(Fault { why, place: start }),
    }
}

// The number just read is refused unless it passes.
pub fn judge(c: Cursor, ok: bool, why: Refusal) -> Result<Cursor, Fault>
    requires { values why ≡ [] }
    ensures { Stands result (judged (standing c) ok (number why)) }
{
    if ok {
        return Ok(c);
    }
    Err(Fault {
        why,
        place: c.start,
    })
}

pub fn read_ranged(s: &[u8], c: Cursor, range: Range, why: Refusal) -> Result<Cursor, Fault>
    requires { values why ≡ [] }
    ensures { Stands result (ranged s.now (standing c) range (number why)) }
{
    let n = next_number(s, c)?;
    let ok = in_range(range, n.value);
    judge(n, ok, why)
}
