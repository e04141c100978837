// Why a block is refused.
ghost use Rattle.std.specs.Prelude.{◌≡◌, ◌+◌, ◌/◌, ◌%◌, ◌≤◌, ◌<◌, eqb};
ghost use Rattle.basis.specs.Refusals.{number_or_0};
ghost use Rattle.basis.specs.Tests.{and};
ghost use Rattle.state.specs.State.{last_clock};
ghost use Rattle.frame.specs.Mode.{mode_ok};
ghost use Rattle.block.specs.Block.{mode_of, masks_ok, refusal_then, refusal};
ghost use Rattle.block.specs.Play.{event_bit, events};

use basis::Refusal;
use frame::{Frame, frame_passes};
use scheduler::mask_passes;
use state::{State, fits};
use table::{Table, Thread, legal};

// Whether so many bytes are a multiple of the threads, and so many masks one a step.
fn is_whole(count: usize, masks: usize, bytes: usize) -> bool
    requires { 0 < count }
    ensures { result ≡ and (eqb (bytes % count) 0) (eqb masks (bytes / count)) }
{
    if bytes % count != 0 {
        return false;
    }
    masks == bytes / count
}

// A thread's bit among the event threads.
fn event_bit(th: Thread) -> u32
    ensures { (result ≡ event_bit th) × (result < 2) }
{
    if th.kind == 1 {
        return 1;
    }
    0
}

// The event threads as a mask.
fn events_of(t: Table) -> u32
    requires { t.count ≤ 32 }
    ensures { result ≡ events t 0 t.count }
{
    let mut all: u32 = 0;
    for i in (0..t.count as usize).rev() {
        all = all * 2 + event_bit(t.threads[i]);
    }
    all
}

// Whether each mask has bits of event threads only; one among them needs no look at the table.
fn masks_pass(t: Table, masks: &[u32]) -> bool
    requires { t.count ≤ 32 }
    ensures { result ≡ masks_ok t masks.now }
{
    let all = events_of(t);
    for &mask in masks {
        if mask & all != mask && !mask_passes(t, mask) {
            return false;
        }
    }
    true
}

// Whether the frame passes, if there is one.
#[tactic(auto, unfolding(frame::specs::Mode::mode_ok))]
pub fn mode_passes(t: Table, frame: Option<Frame>) -> bool
    ensures { result ≡ mode_ok t (mode_of frame) }
{
    match frame {
        Some(f) => frame_passes(t, f),
        None => true,
    }
}

// How many steps there are from a clock up to the last.
pub fn clocks_left(clock: u32) -> usize
    requires { clock ≤ last_clock }
    ensures { clock + result ≡ last_clock }
{
    (1000000000 - clock) as usize
}

// Of a legal table and a frame that passes: 12, 13, 18, 14, 16, or none of them.
fn judge_then(t: Table, s: State, masks: &[u32], bytes: &[u8], room: usize) -> Result<(), Refusal>
    requires { (t.count ≤ 32) × (0 < t.count) }
    ensures { number_or_0 result ≡ refusal_then t masks.now bytes.now s room }
{
    if !fits(t, s) {
        return Err(Refusal::NotFitting);
    }
    let m = masks.len();
    if !is_whole(t.count as usize, m, bytes.len()) {
        return Err(Refusal::StepBytes);
    }
    if !masks_pass(t, masks) {
        return Err(Refusal::EventMask);
    }
    if clocks_left(s.clock) < m {
        return Err(Refusal::LastClock);
    }
    if room < m {
        return Err(Refusal::NoRoom);
    }
    Ok(())
}

// 11, 19, 12, 13, 18, 14, 16, or none of them.
pub fn judge(
    t: Table,
    frame: Option<Frame>,
    s: State,
    masks: &[u32],
    bytes: &[u8],
    room: usize,
) -> Result<(), Refusal>
    ensures { number_or_0 result ≡ refusal t (mode_of frame) masks.now bytes.now s room }
{
    if !legal(t) {
        return Err(Refusal::NotLegal);
    }
    if !mode_passes(t, frame) {
        return Err(Refusal::Frame);
    }
    judge_then(t, s, masks, bytes, room)
}
