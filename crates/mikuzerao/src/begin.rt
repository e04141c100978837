// How a call with steps begins: its words, files, frame and table are judged before anything is printed.
ghost use Rattle.std.specs.Prelude.{◌≤◌};

use super::call::Call;
use super::files::{Source, input_once, open_named, open_optional};
use super::framing::{check_frame, take_frame};
use super::options::{Options, take_options};
use super::say::{Stop, Stream};
use super::tables::{Given, read_table};
use frame::Frame;
use std::rt::Runtime;

// The options of a call, with the frame and the events that they name.
#[derive(Drop)]
pub struct Asked<S> {
    pub options: Options,
    pub frame: Option<Frame>,
    pub events: Option<S>,
}

// The options from a word on, before which the files of the call stand.
pub fn take_asked<R: Runtime>(
    rt: &R,
    call: Call,
    from: usize,
) -> Result<Asked<Source<R::File, R::Reader>>, Stop>
    requires { from ≤ 64 }
{
    let options = take_options(rt, call, from)?;
    input_once(rt, from, &[options.events, options.frame])?;
    let frame = take_frame(rt, options.frame)?;
    let events = open_optional(rt, options.events)?;
    Ok(Asked {
        options,
        frame,
        events,
    })
}

// The table of word 2, with which the frame passes, and beside it the steps of word 3.
pub fn open_steps<R: Runtime>(
    rt: &R,
    to: Stream,
    frame: Option<Frame>,
) -> Result<Given<Source<R::File, R::Reader>, Source<R::File, R::Reader>>, Stop> {
    let given = read_table(rt, to, || open_named(rt, 3))?;
    check_frame(rt, to, &given.table, frame)?;
    Ok(given)
}
