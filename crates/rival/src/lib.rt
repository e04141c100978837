// A second scheduler, written from documents 01 and 02 alone, for the first to be played against. It shares types with the first, and
// neither a function nor a definition. It tells the time by when a thread was last released, takes a mask for a set of threads, and walks
// over such a set.
#![tactic(auto)]

mod events;
mod fit;
mod frames;
mod seen;
mod start;
mod time;
mod visits;

use basis::Refusal;
use events::mask_is_good;
use fit::fits;
use frames::{frame_is_good, threads_at};
use rival_table::{legal, unless};
use scheduler::{Frame, State, Stepped};
pub use seen::{shown, shown_state};
pub use start::fresh;
use table::Table;

// The threads that a walk goes over without a frame.
const ALL: u32 = 4294967295;

// Refuses a step with 11, 19, 12, 13, 18, 14.
fn judge(t: Table, frame: Option<Frame>, s: State, mask: u32, bytes: &[u8]) -> Result<(), Refusal> {
    unless(legal(t), Refusal::NotLegal)?;
    if let Some(f) = frame {
        unless(frame_is_good(t, f), Refusal::Frame)?;
    }
    unless(fits(t, s), Refusal::NotFitting)?;
    unless(bytes.len() == t.count as usize, Refusal::StepBytes)?;
    unless(mask_is_good(t, mask), Refusal::EventMask)?;
    unless(s.clock < fit::END, Refusal::LastClock)
}

// One step with the events of a mask, in the frame if there is one.
pub fn step(t: Table, frame: Option<Frame>, s: State, mask: u32, bytes: &[u8]) -> Stepped {
    if let Err(why) = judge(t, frame, s, mask, bytes) {
        return Stepped {
            outcome: Err(why),
            state: s,
        };
    }
    let among = frame.map_or(ALL, |f| threads_at(t, f, s.clock));
    let (answer, mut next) = visits::walk(t, time::release(t, s, mask), among, bytes);
    next.clock = s.clock.wrapping_add(1);
    Stepped {
        outcome: Ok(answer),
        state: next,
    }
}
