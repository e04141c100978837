// Mending a flow policy: the smallest transitive relation that holds the rows given, and the pairs that were added.
#![tactic(auto)]

ghost use Rattle.std.specs.Prelude.{◌≡◌, ◌≤◌, length};
ghost use Rattle.mend.specs.Mend.{full, bad_row, sought, outcome, mending};

use flow::row_passes;

mod grid;
mod pairs;

use grid::mended;
use pairs::{count_added, list_added};

// How many pairs were added, and the rows mended, with zeros behind the last domain.
#[derive(Clone, Copy, Debug, PartialEq, Eq)]
pub struct Mended {
    pub added: usize,
    pub rows: [u16; 16],
}

// Why rows are not mended: how many they are, the first that does not pass, or too little room for the pairs.
#[derive(Clone, Copy, Debug, PartialEq, Eq)]
pub enum Unmendable {
    BadCount,
    BadRow(u8),
    NoRoom,
}

// The rows as a table has them, with zeros behind the last.
fn copied(given: &[u16]) -> [u16; 16]
    requires { length given.now ≤ 16 }
    ensures { result ≡ full given.now }
{
    let mut rows = [0; 16];
    rows[..given.len()].copy_from_slice(given);
    rows
}

// The first row that does not pass, if there is one.
fn first_bad(domains: u8, rows: [u16; 16]) -> Option<u8>
    requires { domains ≤ 16 }
    ensures { sought result ≡ bad_row domains rows }
{
    (0..domains).find(|i| !row_passes(domains, *i, rows[*i as usize]))
}

// The rows given, one a domain, mended; each pair that was added stands in the list, as 16 times the source plus the target.
pub fn mend(given: &[u16], pairs: &mut [u8]) -> Result<Mended, Unmendable>
    ensures { outcome result pairs.new ≡ mending given.now pairs.old }
{
    let n = given.len();
    if n == 0 || 16 < n {
        return Err(Unmendable::BadCount);
    }
    let rows = copied(given);
    if let Some(i) = first_bad(n as u8, rows) {
        return Err(Unmendable::BadRow(i));
    }
    let ms = mended(n, rows);
    let count = count_added(rows, ms);
    if pairs.len() < count {
        return Err(Unmendable::NoRoom);
    }
    list_added(rows, ms, pairs);
    Ok(Mended {
        added: count,
        rows: ms,
    })
}
