// A block written into a whole record, from the place where the last call stopped.
ghost use Rattle.std.specs.Prelude.{◌+◌, ◌<◌, ◌≡◌};
ghost use Rattle.frame.specs.Mode.{unframed, framed};
ghost use Rattle.basis.specs.Refusals.{number, number_or_0};
ghost use Rattle.block.specs.Block.{refusal as the-refusal, mode_of, next_of, values_of, blocked_of, or_no_room, stop as the-stop, recorded};

use super::judge::judge;
use super::{Ended, refuse, run_in_mode};
use basis::Refusal;
use frame::Frame;
use state::State;
use table::Table;

// Where no other number refuses a block that has no place to write, 16 does.
#[tactic(auto, unfolding(crate::specs::Block::or_no_room, basis::specs::Tests::pick))]
fn or_no_room(judged: Result<(), Refusal>) -> Refusal
    ensures { number result ≡ or_no_room (number_or_0 judged) }
{
    match judged {
        Ok(()) => Refusal::NoRoom,
        Err(why) => why,
    }
}

// What a part's run gives, said of the whole record that it starts in at a place.
#[tactic(auto, unfolding(crate::specs::Block::stop, basis::specs::Tests::pick))]
fn behind(at: usize, end: Ended) -> Ended
    requires { at + next_of end.outcome < 18446744073709551616 }
    ensures { (result.state ≡ end.state) × (number_or_0 result.outcome ≡ number_or_0 end.outcome) × (values_of result.outcome ≡ values_of end.outcome) × (next_of result.outcome ≡ the-stop (number_or_0 end.outcome) at (next_of end.outcome)) }
{
    match end.outcome {
        Ok(next) => Ended {
            outcome: Ok(at + next),
            state: end.state,
        },
        Err(_) => end,
    }
}

// One step for each mask, in the frame if there is one, the bytes from the place at on: the part that is lent starts there, and the next
// call's place is reported.
fn record_in_mode(
    t: Table,
    frame: Option<Frame>,
    s: State,
    masks: &[u32],
    bytes: &[u8],
    out: &mut [u8],
    at: usize,
) -> Ended
    ensures { blocked_of result out.new ≡ recorded t (mode_of frame) masks.now bytes.now s out.old at }
{
    if out.len() < at {
        return refuse(or_no_room(judge(t, frame, s, masks, bytes, 0)), s);
    }
    behind(at, run_in_mode(t, frame, s, masks, bytes, &mut out[at..]))
}

// The same without a frame.
pub fn run_at(t: Table, s: State, masks: &[u32], bytes: &[u8], out: &mut [u8], at: usize) -> Ended
    ensures { blocked_of result out.new ≡ recorded t unframed masks.now bytes.now s out.old at }
{
    record_in_mode(t, None, s, masks, bytes, out, at)
}

// The same in a frame.
pub fn run_at_in_frame(
    t: Table,
    f: Frame,
    s: State,
    masks: &[u32],
    bytes: &[u8],
    out: &mut [u8],
    at: usize,
) -> Ended
    ensures { blocked_of result out.new ≡ recorded t (framed f) masks.now bytes.now s out.old at }
{
    record_in_mode(t, Some(f), s, masks, bytes, out, at)
}
