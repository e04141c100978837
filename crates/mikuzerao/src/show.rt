// What a run shows: a line a step, as the bench has it or as a domain is shown it, or the trace's bytes; and the state at the end.
use super::page::Page;
use super::refusal::refuse;
use super::say::{Stop, Stream, say, write};
use basis::Refusal;
use sentence::{Named, explain_absent};
use sight::{shown, shown_state};
use state::{Progress, State};
use std::array;
use std::fmt::Write;
use table::Table;
use walk::Answer;

// How steps are shown: in bytes, in lines, or in lines to a domain, with which threads it is shown.
#[derive(Clone, Copy, Debug, PartialEq, Eq)]
pub enum Look {
    Bytes,
    Whole,
    Part { domain: u8, seen: [bool; 32] },
}

// Where the refusals of a run go: bytes are alone on standard output.
pub fn refusals_to(look: &Look) -> Stream {
    match look {
        Look::Bytes => Stream::Complaints,
        Look::Whole | Look::Part { domain: _, seen: _ } => Stream::Output,
    }
}

// Lines, to a domain where one is asked for; one that the table has not is 15.
pub fn look_of(rt: &(impl Print + Eprint), t: &Table, domain: Option<u64>) -> Result<Look, Stop> {
    let Some(n) = domain else {
        return Ok(Look::Whole);
    };
    if t.domains as u64 <= n {
        return Err(refuse(
            rt,
            Stream::Output,
            Refusal::Missing,
            None,
            |out| explain_absent(out, Named::Domain, n, t.domains),
        ));
    }
    let domain = n as u8;
    let seen = array::from_fn(|i| {
        matches!(shown(*t, domain, Answer::Ran(i as u8)), Ok(Some(_)))
    });
    Ok(Look::Part { domain, seen })
}

// The lines of a block as a domain is shown them.
fn put_shown(page: &mut Page, clock: u32, trace: &[u8], seen: &[bool; 32]) {
    for (k, b) in trace.iter().enumerate() {
        let at = clock as u64 + k as u64;
        let _ = match seen.get(*b as usize) {
            Some(true) => write!(page, "{at} T{b}\n"),
            _ => write!(page, "{at} gap\n"),
        };
    }
}

// The steps of a block, the first of which has this clock.
pub fn show_steps(
    rt: &(impl Print + Eprint),
    look: &Look,
    page: &mut Page,
    clock: u32,
    trace: &[u8],
) -> Result<(), Stop> {
    page.clear();
    match look {
        Look::Bytes => return write(rt, trace),
        Look::Whole => page.put_trace(clock, trace),
        Look::Part { domain: _, seen } => put_shown(page, clock, trace, seen),
    }
    write(rt, page.text())
}

fn say_progress(rt: &(impl Print + Eprint), i: usize, p: Progress) {
    let finished = u8::from(p.finished);
    say(
        rt,
        format_args!(
            "thread {i} rest {} execution {} finished {finished} ran {} since {}\n",
            p.rest, p.execution, p.ran, p.since
        ),
    );
}

// A line for each thread of the state; of the threads that the domain may not see, zeros.
pub fn show_state(rt: &(impl Print + Eprint), look: &Look, t: &Table, s: State) {
    let threads = match look {
        Look::Part { domain, seen: _ } => shown_state(*t, s, *domain),
        Look::Bytes | Look::Whole => Ok(s.threads),
    };
    if let Ok(threads) = threads {
        for (i, p) in threads.iter().take(t.count as usize).enumerate() {
            say_progress(rt, i, *p);
        }
    }
}
