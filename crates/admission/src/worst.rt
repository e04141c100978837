// The worst count of a table.
ghost use Rattle.std.specs.Prelude.{◌≡◌};
ghost use Rattle.table.specs.Legal.{Legal};
ghost use Rattle.admission.specs.Worst.{worst};

use table::Table;

// The sum of D - W + 1 over all threads.
pub fn worst_of(t: Table) -> u32
    requires { Legal t }
    ensures { result ≡ worst t }
{
    let mut sum = 0u32;
    for own in &t.threads[..t.count as usize] {
        sum += own.deadline as u32 - own.budget as u32 + 1;
    }
    sum
}
