// The leak marks, from the table alone.
ghost use Rattle.std.specs.Prelude.{◌≡◌, not, ◌/◌, ◌%◌, ◌^◌, ◌≤◌, ◌<◌, eqb, ltb};
ghost use Rattle.basis.specs.Tests.{and};
ghost use Rattle.table.specs.Mark.{protects, mark, marks_of};

use super::{Mark, Table, Thread};
use flow::{bit, row};

// Whether thread b stands below thread a, whose domain has this row, and may not see it.
fn hides(row: u16, a: Thread, b: Thread) -> bool
    ensures { result ≡ and (ltb b.priority a.priority) (not (eqb (row / 2 ^ b.domain % 2) 1)) }
{
    b.priority < a.priority && !bit(row, b.domain)
}

// The mark of thread i, with the first thread that needs it.
fn mark_of(t: Table, i: u8) -> Mark
    requires { (i < 32) × (t.count ≤ 32) }
    ensures { result ≡ mark (protects t i) }
{
    let a = t.threads[i as usize];
    let rows = t.rows;
    let flow = row(rows, a.domain);
    (0..t.count).find(|j| hides(flow, a, t.threads[*j as usize]))
}

// The mark of each thread of a table that is known to be legal.
pub fn mark_all(t: Table) -> [Mark; 32]
    requires { t.count ≤ 32 }
    ensures { result ≡ marks_of t }
{
    let mut out = [None; 32];
    for i in 0..t.count {
        out[i as usize] = mark_of(t, i);
    }
    out
}
