// The threads that are open to a domain.
ghost use Rattle.std.specs.Prelude.{◌≡◌, ◌≤◌};
ghost use Rattle.order.specs.Order.{ranked, Below};
ghost use Rattle.order.specs.Open.{open_to};

use super::Ranks;
use flow::{bit, row};
use table::Table;

// Of the ranked threads those whose domain d may flow to, in the same order.
pub fn open_to(t: Table, o: Ranks, d: u8) -> Ranks
    requires { (t.count ≤ 32) × (o.count ≤ 32) × Below t.count (ranked o) }
    ensures { (result.count ≤ 32) × (ranked result ≡ open_to t d (ranked o)) }
{
    let rows = t.rows;
    let flow = row(rows, d);
    let count = o.count as usize;
    let mut next = Ranks::none();
    for k in 0..count {
        let i = o.at[k];
        let th = t.threads[i as usize];
        next = next.push_if(i, bit(flow, th.domain));
    }
    next
}
