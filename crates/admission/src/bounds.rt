// The search for a bound with its count, and the bounds of all threads.
ghost use Rattle.std.specs.Prelude.{◌≡◌, ◌<◌};
ghost use Rattle.table.specs.Legal.{Legal};
ghost use Rattle.admission.specs.Bounded.{bound, sought};
ghost use Rattle.admission.specs.Tried.{tried as the-tried};
ghost use Rattle.admission.specs.Admit.{first_without, bounds_of, unless, searched, counts_of};

use super::demand::demand;
use super::{Admission, Search};
use table::Table;

// From the budget on, a length gives way to its demand while that is larger; above the deadline the search gives up.
pub fn find_bound(t: Table, i: u8) -> Search
    requires { Legal t × (i < t.count) }
    ensures { (sought result.bound ≡ bound t i) × (result.tried ≡ the-tried t i) }
{
    let own = t.threads[i as usize];
    let last = own.deadline as u64;
    let mut x = own.budget as u64;
    let mut tried = 0u16;
    while x <= last {
        let next = demand(t, i, x as u32);
        tried += 1;
        if next <= x {
            return Search {
                bound: Some(x as u16),
                tried,
            };
        }
        x = next;
    }
    Search { bound: None, tried }
}

// The admission of a table that is known to be legal.
pub fn admit_legal(t: Table) -> Admission
    requires { Legal t }
    ensures { (sought result.without ≡ first_without t) × (result.bounds ≡ unless (first_without t) (bounds_of t)) × (result.tried ≡ counts_of t (searched t)) }
{
    let mut bounds = [0u16; 32];
    let mut tried = [0u16; 32];
    for i in 0..t.count {
        let search = find_bound(t, i);
        tried[i as usize] = search.tried;
        let Some(x) = search.bound else {
            return Admission {
                without: Some(i),
                bounds: [0; 32],
                tried,
            };
        };
        bounds[i as usize] = x;
    }
    Admission {
        without: None,
        bounds,
        tried,
    }
}
