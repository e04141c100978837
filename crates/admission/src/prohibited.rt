// The prohibition time of a thread.
ghost use Rattle.std.specs.Prelude.{◌≡◌, ◌<◌, ◌≤◌};
ghost use Rattle.table.specs.Legal.{Legal};
ghost use Rattle.admission.specs.Prohibition.{stretch as the-stretch, prohibition};

use basis::rounded_up;
use table::{Table, Thread, mark_all};

// What thread h, marked or not, brings to own's prohibition time: B for each of its releases in own's period.
#[tactic(auto, using(crate::proofs::QuotientLaws::product_fits), unfolding(crate::specs::Prohibition::stretch, crate::specs::Demand::above, basis::specs::Tests::pick))]
fn stretch(own: Thread, marked: bool, h: Thread) -> u64
    requires { (1 ≤ own.period) × (1 ≤ h.period) }
    ensures { result ≡ the-stretch own marked h }
{
    if !marked || h.priority <= own.priority {
        return 0;
    }
    rounded_up(own.period as u32, h.period as u32) * h.blocking as u64
}

// The sum over the marked threads above thread l.
pub fn prohibition_time(t: Table, l: u8) -> u64
    requires { Legal t × (l < t.count) }
    ensures { result ≡ prohibition t l }
{
    let own = t.threads[l as usize];
    let marks = mark_all(t);
    let mut sum = 0u64;
    for (upper, mark) in t.threads[..t.count as usize].iter().zip(&marks) {
        sum += stretch(own, mark.is_some(), *upper);
    }
    sum
}
