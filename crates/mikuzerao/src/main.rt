// Program mikuzerao: the desk's calls. The first word says what to do; what it answers is worked out below, in the proved crates.
#![tactic(auto)]

mod begin;
mod call;
mod clean;
mod commands;
mod desk;
mod drive;
mod files;
mod framing;
mod help;
mod long;
mod masks;
mod mending;
mod options;
mod page;
mod parts;
mod plan;
mod refusal;
mod run;
mod say;
mod show;
mod steps;
mod stop;
mod tables;
mod words;

use call::{Call, call_of};
use clean::clean;
use desk::{desk, say_legal, say_written};
use drive::drive;
use help::help;
use mending::mend_rows;
use plan::plan;
use run::run;
use say::{Stop, Stream, wrong};
use std::process::ExitCode;
use std::rt::Runtime;
use words::read_word;

fn answer(rt: &impl Runtime, call: Call) -> Result<(), Stop> {
    match call {
        Call::Check => desk(rt, Stream::Output, |t| say_legal(rt, t)),
        Call::Bytes => desk(rt, Stream::Complaints, |t| {
            say_written(rt, |out| codec::write(*t, out, 0))
        }),
        Call::Sheet => desk(rt, Stream::Complaints, |t| {
            say_written(rt, |out| sheet::write(*t, out, 0))
        }),
        Call::Plan => desk(rt, Stream::Output, |t| plan(rt, t)),
        Call::Mend => mend_rows(rt),
        Call::Run | Call::Trace => run(rt, call),
        Call::Clean => clean(rt),
        Call::Drive => drive(rt),
        Call::Help => {
            help(rt);
            Ok(())
        }
    }
}

// The status of the call that the first word names.
fn status(rt: &impl Runtime) -> u8 {
    let ended = match read_word(rt, 1, call_of) {
        Some(call) => answer(rt, call),
        None => Err(wrong(
            rt,
            "the first word is one of check, bytes, sheet, plan, mend, run, trace, clean, drive, help",
        )),
    };
    match ended {
        Ok(()) => 0,
        Err(stop) => u8::from(stop),
    }
}

fn main(rt: HostRuntime) -> ExitCode {
    ExitCode::from(status(&rt))
}
