// drive: a step and a move of the actuator for each command.
ghost use Rattle.std.specs.Prelude.{◌<◌, Some};
ghost use Rattle.report.specs.Lines.{choice};

use super::begin::{Asked, open_steps, take_asked};
use super::call::Call;
use super::commands::{Commands, count_commands};
use super::files::{Source, open_named, rewind};
use super::masks::take_masks;
use super::options::Options;
use super::page::Page;
use super::parts::{Flow, read_parts, take_turns};
use super::refusal::refuse;
use super::say::{Stop, Stream, say, write, wrong};
use super::steps::{fresh_state, say_threads, step_size};
use super::stop::{Stuck, check_end, refuse_step};
use super::tables::Given;
use super::words::want_more;
use actuator::{Actuator, drive_in_frame, start};
use basis::Refusal;
use frame::Frame;
use input::fill;
use scheduler::Answer;
use sentence::{Named, explain_absent, explain_drive};
use state::State;
use std::fmt;
use std::fmt::{Display, Formatter, Write};
use std::io::Read;
use std::rt::Runtime;
use table::Table;

// How many bytes a source gives.
fn count_bytes<S: Read>(from: &mut S) -> u64 {
    let mut n = 0u64;
    let _ = read_parts(from, |part| -> Result<(), Stop> {
        n = n.saturating_add(part.len() as u64);
        Ok(())
    });
    n
}

// A command for each step; one that is short of bytes needs none and may have one.
fn is_one_each(bytes: u64, size: u64, lines: u64) -> bool
    requires { 0 < size }
{
    let whole = bytes / size;
    lines == whole || bytes % size != 0 && lines.checked_sub(1) == Some(whole)
}

// What ran, as the bench has it.
#[derive(Clone, Copy, Debug, PartialEq, Eq)]
struct Choice(Answer);

impl Display for Choice {
    ghost output = { λ c. Some (choice c.0) };

    fn fmt<W: Write>(&self, f: &mut Formatter<W>) -> fmt::Result {
        match self.0 {
            Answer::Ran(i) => write!(f, "T{i}"),
            Answer::IdleFor(i) => write!(f, "I{i}"),
            Answer::Idle => write!(f, "--"),
        }
    }
}

// A drive: what it is of, where its steps, masks and commands come from, and how far it is.
#[derive(Drop)]
struct Driving<'a, R, S> {
    rt: &'a R,
    table: Table,
    frame: Option<Frame>,
    options: Options,
    steps: S,
    events: Option<S>,
    commands: Commands<S>,
    state: State,
    actuator: Actuator,
    page: Page,
}

impl<R: Print + Eprint, S: Read> Driving<'_, R, S> {
    // 15 is the thread's, and has no clock; 20 is that of the rate or the start.
    fn stop(&self, stuck: Stuck) -> Stop {
        let t = &self.table;
        let o = self.options;
        let clock = self.state.clock;
        match stuck {
            Stuck::Refused {
                why: Refusal::Missing,
                mask: _,
            } => refuse(
                self.rt,
                Stream::Output,
                Refusal::Missing,
                None,
                |out| explain_absent(out, Named::Thread, o.thread, t.count),
            ),
            Stuck::Refused {
                why: Refusal::Actuator,
                mask: _,
            } => refuse(
                self.rt,
                Stream::Output,
                Refusal::Actuator,
                Some(clock as u64),
                |out| explain_drive(
                    out,
                    false,
                    o.rate,
                    o.start < 0,
                    u64::from(o.start.unsigned_abs()),
                ),
            ),
            _ => refuse_step(self.rt, Stream::Output, t, clock, stuck),
        }
    }

    // One step and one move, with the next command, or 0 where there is none more: a line, or why it is refused.
    fn ride(&mut self, mask: u32, bytes: &[u8]) -> Result<(), Refusal> {
        let t = self.table;
        let s = self.state;
        let a = self.actuator;
        let c = self.commands.next_command().unwrap_or(0) as i64;
        let d = match self.frame {
            Some(f) => drive_in_frame(t, f, s, a, mask, bytes, c),
            None => actuator::drive(t, s, a, mask, bytes, c),
        };
        let choice = Choice(d.outcome?);
        let next = d.actuator;
        self.state = d.state;
        self.actuator = next;
        let _ = write!(
            self.page,
            "{} {choice} {} {}\n",
            s.clock, next.command, next.position
        );
        Ok(())
    }

    // Each of these steps that has a mask.
    fn ride_all(&mut self, masks: &[u32], bytes: &[u8]) -> Result<(), Stuck> {
        let size = step_size(&self.table);
        for (mask, step) in masks.iter().zip(bytes.chunks_exact(size)) {
            if let Err(why) = self.ride(*mask, step) {
                return Err(Stuck::Refused { why, mask: *mask });
            }
        }
        Ok(())
    }

    // The next 1,000 steps, with their masks and commands.
    fn take_block(&mut self) -> Result<Flow, Stop> {
        let mut steps = [0u8; 32000];
        let mut masks = [0u32; 1000];
        let size = step_size(&self.table);
        let most = (1000 * size).min(32000);
        let n = fill(&mut self.steps, &mut steps[..most]).count;
        let came = take_masks(&mut self.events, &mut masks, n / size);
        self.page.clear();
        let ridden = self
            .ride_all(came.masks, &steps[..n])
            .and_then(|_| came.check(n / size, size));
        let written = write(self.rt, self.page.text());
        if let Err(stuck) = ridden {
            return Err(self.stop(stuck));
        }
        if most <= n {
            written?;
            return Ok(Flow::On);
        }
        if let Err(stuck) = check_end(&mut self.events, n % size) {
            return Err(self.stop(stuck));
        }
        say(self.rt, format_args!("end {}\n", self.state.clock));
        Ok(Flow::Over)
    }
}

// The commands of word 4 and how many lines they have, each of which must be a number.
fn open_commands<R: Runtime>(rt: &R) -> Result<(Source<R::File, R::Reader>, u64), Stop> {
    let mut commands = open_named(rt, 4)?;
    let Ok(lines) = count_commands(&mut commands) else {
        return Err(wrong(rt, "a line of the commands is no number"));
    };
    rewind(rt, &mut commands)?;
    Ok((commands, lines))
}

pub fn drive(rt: &impl Runtime) -> Result<(), Stop> {
    want_more(rt, 4, "a table, steps and commands are wanted")?;
    let Asked {
        options: o,
        frame,
        events,
    } = take_asked(rt, Call::Drive, 5)?;
    let (commands, lines) = open_commands(rt)?;
    let Given {
        table,
        beside: mut steps,
        file: _file,
    } = open_steps(rt, Stream::Output, frame)?;
    let bytes = count_bytes(&mut steps);
    rewind(rt, &mut steps)?;
    if !is_one_each(bytes, step_size(&table) as u64, lines) {
        return Err(wrong(rt, "there is not one command for each step"));
    }
    say_threads(rt, &table);
    let mut driving = Driving {
        rt,
        state: fresh_state(rt, Stream::Output, &table)?,
        table,
        frame,
        options: o,
        steps,
        events,
        commands: Commands::new(commands),
        actuator: start(o.start, o.rate.min(4000000) as u32, o.thread.min(255) as u8),
        page: Page::new(),
    };
    take_turns(|| driving.take_block())
}
