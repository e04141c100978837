// Refusals of a step, a frame, a drive or a trace, and those that name nothing.
ghost use Rattle.std.specs.Prelude.{◌<◌, Some};
ghost use Rattle.sentence.specs.Names.{named_name};

use super::page::put;
use basis::Refusal;
use frame::{Frame, Window};
use std::fmt;
use std::fmt::{Display, Formatter, Write};
use table::Table;

// What a call names by its number.
#[derive(Clone, Copy, Debug, PartialEq, Eq)]
pub enum Named {
    Domain,
    Thread,
}

impl Display for Named {
    ghost output = { λ n. Some (named_name n) };

    fn fmt<W: Write>(&self, f: &mut Formatter<W>) -> fmt::Result {
        f.write_str(match self {
            Named::Domain => "domain",
            Named::Thread => "thread",
        })
    }
}

// 13: how many bytes the step at a clock has of the number that it wants, and how many of the four of its mask.
pub fn explain_short(out: &mut [u8], clock: u32, bytes: u64, want: u64, mask: u64) -> usize {
    if bytes == 0 {
        return put(
            out,
            format_args!("step {clock}: there is a mask for it, but no bytes\n"),
        );
    }
    if bytes < want {
        return put(
            out,
            format_args!("step {clock}: its bytes end after {bytes} of {want}\n"),
        );
    }
    if mask == 0 {
        return put(out, format_args!("step {clock}: there is no mask for it\n"));
    }
    put(
        out,
        format_args!("step {clock}: its mask ends after {mask} of 4 bytes\n"),
    )
}

// Whether no event may release thread i.
fn is_deaf(t: &Table, i: u8) -> bool
    requires { i < 32 }
{
    t.count <= i || t.threads[i as usize].kind != 1
}

// 18: the first thread in the mask that no event may release.
pub fn explain_event(out: &mut [u8], clock: u32, mask: u32, t: Table) -> usize {
    let last = t.count.saturating_sub(1);
    match (0..32u8).find(|&i| (mask >> i) % 2 == 1 && is_deaf(&t, i)) {
        None => explain_other(out, Some(Refusal::EventMask)),
        Some(i) if i < t.count => put(
            out,
            format_args!("step {clock}: its mask names thread {i}, which is periodic\n"),
        ),
        Some(i) => put(
            out,
            format_args!(
                "step {clock}: its mask names thread {i}, and the last thread is {last}\n"
            ),
        ),
    }
}

// 15: no such thread, or no such domain, by how many there are.
pub fn explain_absent(out: &mut [u8], named: Named, n: u64, count: u8) -> usize {
    let last = count.saturating_sub(1);
    put(
        out,
        format_args!("there is no {named} {n}: the last one is {last}\n"),
    )
}

// A window on this line that does not pass with so many domains. A domain of 255 stands for every larger one too.
fn explain_window(out: &mut [u8], line: usize, w: Window, domains: u8) -> usize {
    let domain = w.domain;
    let more = if domain == 255 { " or more" } else { "" };
    let last = domains.saturating_sub(1);
    if domains <= domain {
        return put(
            out,
            format_args!(
                "line {line} of the frame: its domain is {domain}{more}, and the last domain is {last}\n"
            ),
        );
    }
    if w.length == 0 {
        return put(
            out,
            format_args!("line {line} of the frame: its length is 0, and 1 is the least\n"),
        );
    }
    put(
        out,
        format_args!("line {line} of the frame: its length is above 60000\n"),
    )
}

// 19: the count of windows, or the first line that does not pass.
pub fn explain_frame(out: &mut [u8], f: Frame, domains: u8) -> usize {
    if f.count == 0 {
        return put(out, "the frame has no line: 1 to 64 are possible\n");
    }
    if 64 < f.count {
        return put(
            out,
            "the frame has more than 64 lines: 1 to 64 are possible\n",
        );
    }
    for (k, w) in f.windows.iter().enumerate() {
        if domains <= w.domain || w.length == 0 || 60000 < w.length {
            return explain_window(out, k + 1, *w, domains);
        }
    }
    explain_other(out, Some(Refusal::Frame))
}

// The sign of a number as it was typed.
fn sign_of(minus: bool) -> &'static str {
    if minus { "-" } else { "" }
}

// 20: the rate, or else the start, each by its sign and its size.
pub fn explain_drive(
    out: &mut [u8],
    rate_minus: bool,
    rate: u64,
    start_minus: bool,
    start: u64,
) -> usize {
    if rate_minus || rate == 0 || 1000 < rate {
        let sign = sign_of(rate_minus);
        return put(
            out,
            format_args!("the rate is {sign}{rate}: 1 to 1000 are possible\n"),
        );
    }
    let sign = sign_of(start_minus);
    put(
        out,
        format_args!("the start is {sign}{start}: -5000 to 95000 are possible\n"),
    )
}

// 21: the byte of a step in a trace.
pub fn explain_byte(out: &mut [u8], step: u64, b: u8, count: u8) -> usize {
    let last = count.saturating_sub(1);
    put(
        out,
        format_args!(
            "step {step} of the trace: its byte {b} names no thread, and the last thread is {last}\n"
        ),
    )
}

// A refusal by its kind alone, or a number that is no refusal's.
pub fn explain_other(out: &mut [u8], why: Option<Refusal>) -> usize {
    put(
        out,
        match why {
            Some(Refusal::Intransitive { a: _, b: _, c: _ }) =>
                "the flow relation is not transitive\n",
            Some(Refusal::NotLegal) => "the table is not legal\n",
            Some(Refusal::NotFitting) => "the state does not fit the table\n",
            Some(Refusal::StepBytes) => "the bytes or the masks do not fit the steps\n",
            Some(Refusal::LastClock) =>
                "the clock has reached 1,000,000,000, and no step follows\n",
            Some(Refusal::Missing) => "there is no such domain or thread\n",
            Some(Refusal::NoRoom) => "there is too little room\n",
            Some(Refusal::EventMask) => "a mask names a thread that no event releases\n",
            Some(Refusal::Frame) => "the frame does not fit the table\n",
            Some(Refusal::Actuator) => "the rate or the start is out of its range\n",
            Some(Refusal::TraceByte) => "a byte of the trace names no thread of the table\n",
            _ => "the table is refused\n",
        },
    )
}
