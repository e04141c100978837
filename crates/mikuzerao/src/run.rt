// run and trace: every whole step that has arrived is answered before the program waits for more.
ghost use Rattle.std.specs.Prelude.{◌≤◌, ◌<◌, length};

use super::begin::{Asked, open_steps, take_asked};
use super::call::Call;
use super::masks::take_masks;
use super::page::Page;
use super::parts::{Flow, take_turns};
use super::say::{Stop, Stream, say, unread};
use super::show::{Look, look_of, refusals_to, show_state, show_steps};
use super::steps::{fresh_state, say_threads, step_size};
use super::stop::{Stuck, check_end, refuse_step};
use super::tables::Given;
use super::words::want_more;
use frame::Frame;
use input::{Reach, read_on};
use state::State;
use std::io::Read;
use std::rt::Runtime;
use table::Table;

// A run: what it is of, how it is shown, whether the state is told at its end, where its steps and masks come from, and how far it is.
// The bytes at the front of its buffer, an array by value for want of a heap, are of a step that is not whole.
#[derive(Drop)]
struct Running<'a, R, S> {
    rt: &'a R,
    table: Table,
    frame: Option<Frame>,
    look: Look,
    tells_state: bool,
    steps: S,
    events: Option<S>,
    state: State,
    bytes: [u8; 128000],
    have: usize,
    page: Page,
    ghost within: { have ≤ 128000 },
}

impl<R: Print + Eprint, S: Read> Running<'_, R, S> {
    fn stop(&self, stuck: Stuck) -> Stop {
        refuse_step(
            self.rt,
            refusals_to(&self.look),
            &self.table,
            self.state.clock,
            stuck,
        )
    }

    // No more bytes come.
    fn finish(&mut self) -> Result<Flow, Stop> {
        if let Err(stuck) = check_end(&mut self.events, self.have) {
            return Err(self.stop(stuck));
        }
        if self.look != Look::Bytes {
            say(self.rt, format_args!("end {}\n", self.state.clock));
            if self.tells_state {
                show_state(self.rt, &self.look, &self.table, self.state);
            }
        }
        Ok(Flow::Over)
    }

    // Plays the whole steps among the first n bytes and shows them; the rest goes to the front.
    fn answer_whole(&mut self, n: usize) -> Result<Flow, Stop>
        requires { n ≤ 128000 }
    {
        let count = step_size(&self.table);
        let whole = n / count;
        let end = n - n % count;
        let mut masks = [0u32; 4000];
        let mut trace = [0u8; 4000];
        let clock = self.state.clock;
        let came = take_masks(&mut self.events, &mut masks, whole);
        let p = runs::run(
            self.table,
            self.frame,
            self.state,
            came.masks,
            &self.bytes[..end],
            &mut trace,
        );
        self.state = p.state;
        let played = &trace[..p.n.min(4000)];
        let shown = show_steps(self.rt, &self.look, &mut self.page, clock, played);
        if let Some(why) = p.why {
            let mask = came.mask(p.n);
            return Err(self.stop(Stuck::Refused { why, mask }));
        }
        if let Err(stuck) = came.check(whole, count) {
            return Err(self.stop(stuck));
        }
        self.bytes.copy_within(end..n, 0);
        self.have = n - end;
        shown?;
        Ok(Flow::On)
    }

    // Reads what has arrived, up to 4,000 steps, and answers every whole step of it.
    fn take_turn(&mut self) -> Result<Flow, Stop> {
        let most = (4000 * step_size(&self.table)).min(128000);
        let at = self.have.min(most);
        let bytes = &mut self.bytes[..];
        let got = read_on(&mut self.steps, &mut bytes[..most], at);
        if at < got.count {
            return self.answer_whole(got.count);
        }
        match got.reach {
            Reach::Part | Reach::Interrupted(_) => Ok(Flow::On),
            Reach::Whole | Reach::Absent(_) => self.finish(),
            Reach::Failed(error) => Err(unread(self.rt, "the steps", Some(error))),
        }
    }
}

// run, or trace, which shows bytes.
pub fn run(rt: &impl Runtime, call: Call) -> Result<(), Stop> {
    want_more(rt, 3, "a table and steps are wanted")?;
    let Asked {
        options: o,
        frame,
        events,
    } = take_asked(rt, call, 4)?;
    let to = match call {
        Call::Trace => Stream::Complaints,
        _ => Stream::Output,
    };
    let Given {
        table,
        beside: steps,
        file: _file,
    } = open_steps(rt, to, frame)?;
    let look = match call {
        Call::Trace => Look::Bytes,
        _ => look_of(rt, &table, o.shown)?,
    };
    if look != Look::Bytes {
        say_threads(rt, &table);
    }
    let mut running = Running {
        rt,
        state: fresh_state(rt, to, &table)?,
        table,
        frame,
        look,
        tells_state: o.state,
        steps,
        events,
        bytes: [0u8; 128000],
        have: 0,
        page: Page::new(),
    };
    take_turns(|| running.take_turn())
}
