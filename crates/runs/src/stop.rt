// Where a run stops: the first whole step that is refused, by its mask or by the clock. No byte's value is looked at.
ghost use Rattle.std.specs.Prelude.{◌≤◌, ◌<◌, ◌≡◌, true, false, length, get_or};
ghost use Rattle.basis.specs.Tests.{every};
ghost use Rattle.scheduler.specs.Taken.{mask_ok};
ghost use Rattle.block.specs.Block.{number_of};
ghost use Rattle.runs.specs.Playing.{steps_in};
ghost use Rattle.runs.specs.Stopping.{step_refusal, halt_of, Stops};

use super::judge::whole_steps;
use basis::Refusal;
use block::clocks_left;
use scheduler::mask_passes;
use table::Table;

// How many steps come before the first that is refused, and what refuses it.
#[derive(Clone, Copy, Debug, PartialEq, Eq)]
pub struct Halt {
    pub n: usize,
    pub why: Option<Refusal>,
}

// How many masks come before one that does not pass. The bits of those that passed are kept, so that the table is looked at for a new
// bit only.
fn passing(t: Table, masks: &[u32]) -> usize
    ensures { (result ≤ length masks.now) × (every result (λ k. mask_ok t (get_or masks.now k 0)) ≡ true) × (result < length masks.now → mask_ok t (get_or masks.now result 0) ≡ false) }
{
    let mut known: u32 = 0;
    for (k, &mask) in masks.iter().enumerate() {
        if mask & known != mask {
            if !mask_passes(t, mask) {
                return k;
            }
            known |= mask;
        }
    }
    masks.len()
}

// What refuses a whole step of this mask at a clock.
fn refusal(t: Table, clock: u32, mask: u32) -> Option<Refusal>
    ensures { number_of result ≡ step_refusal t clock mask }
{
    if !mask_passes(t, mask) {
        return Some(Refusal::EventMask);
    }
    if clock < 1000000000 {
        return None;
    }
    Some(Refusal::LastClock)
}

// Where steps of so many masks and bytes stop, from a clock on.
pub fn stop(t: Table, clock: u32, masks: &[u32], bytes: usize) -> Halt
    requires { clock ≤ 1000000000 }
    ensures { Stops t clock masks.now (steps_in t.count (length masks.now) bytes) (halt_of result) }
{
    let whole = whole_steps(t.count, masks.len(), bytes);
    let most = clocks_left(clock).min(whole);
    let n = passing(t, &masks[..most]);
    if n == whole {
        return Halt { n, why: None };
    }
    let why = refusal(t, clock + (n as u32), masks[n]);
    Halt { n, why }
}
