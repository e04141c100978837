// The demand on a thread.
ghost use Rattle.std.specs.Prelude.{◌≡◌, ◌<◌, ◌≤◌};
ghost use Rattle.table.specs.Legal.{Legal};
ghost use Rattle.admission.specs.Demand.{share as the-share, demand as the-demand};

use basis::rounded_up;
use table::{Table, Thread};

// What thread h brings to own's demand in x steps.
#[tactic(auto, using(crate::proofs::QuotientLaws::product_fits), unfolding(crate::specs::Demand::share, crate::specs::Demand::above, basis::specs::Tests::pick))]
fn share(own: Thread, x: u32, h: Thread) -> u64
    requires { 1 ≤ h.period }
    ensures { result ≡ the-share own x h }
{
    if h.priority <= own.priority {
        return 0;
    }
    rounded_up(x, h.period as u32) * h.budget as u64
}

// The demand on thread i in x steps: its budget, and what the threads above it bring.
pub fn demand(t: Table, i: u8, x: u32) -> u64
    requires { Legal t × (i < t.count) × (x ≤ 60000) }
    ensures { result ≡ the-demand t i x }
{
    let own = t.threads[i as usize];
    let mut sum = own.budget as u64;
    for other in &t.threads[..t.count as usize] {
        sum += share(own, x, *other);
    }
    sum
}
