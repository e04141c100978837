// The most steps that the processor idles on a thread's account.
ghost use Rattle.std.specs.Prelude.{◌≡◌, ◌<◌};
ghost use Rattle.table.specs.Legal.{Legal};
ghost use Rattle.table.specs.Threads.{thread};
ghost use Rattle.admission.specs.IdleMost.{idle_most};

use basis::rounded_up;
use table::Table;

// W of h for each release that so many steps have at most, and once more for what is left of an earlier one.
pub fn idle_within(t: Table, h: u8, length: u32) -> u64
    requires { Legal t × (h < t.count) }
    ensures { result ≡ idle_most (thread t h) length }
{
    let own = t.threads[h as usize];
    (rounded_up(length, own.period as u32) + 1) * own.budget as u64
}
