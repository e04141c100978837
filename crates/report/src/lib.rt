// The lines that program bench prints, each made whole in a lent buffer from a place that the caller names.
#![tactic(auto)]

ghost use Rattle.std.specs.Prelude.{◌≡◌, ◌+◌, ◌*◌, ◌≤◌, length};
ghost use Rattle.writer.specs.Buffer.{Put};
ghost use Rattle.report.specs.Lines.{threads_line, trace_lines, end_line, refused_line};
ghost use Rattle.report.specs.Printing.{told, printing, printed};

mod text;

use basis::Refusal;
use decimal::put_number;
use text::{lay, print_counted, put, put_line};

// How many threads the table has.
#[tactic(auto, unfolding(crate::specs::Lines::threads_line))]
pub fn print_threads(buf: &mut [u8], at: usize, threads: u8) -> Result<usize, Refusal>
    ensures { (told result ≡ printing buf.old at (threads_line threads)) × (buf.new ≡ printed buf.old at (threads_line threads)) }
{
    print_counted(buf, at, b"threads ", threads as u64)
}

// A line for each byte of a trace, from a clock on: the clock before the step, and whom the step chose. 16 bytes at most a line.
pub fn print_trace(buf: &mut [u8], at: usize, clock: u32, trace: &[u8]) -> usize
    requires { (at + length trace.now * 16 ≤ length buf.old) × (clock + length trace.now ≤ 4294967295) }
    ensures { (result ≤ at + length trace.now * 16) × Put buf.old at buf.new result (trace_lines clock trace.now) }
{
    let mut next = at;
    for (k, &b) in trace.iter().enumerate() {
        next = put_line(buf, next, clock + k as u32, b);
    }
    next
}

// How many steps were done.
#[tactic(auto, unfolding(crate::specs::Lines::end_line))]
pub fn print_end(buf: &mut [u8], at: usize, steps: u32) -> Result<usize, Refusal>
    ensures { (told result ≡ printing buf.old at (end_line steps)) × (buf.new ≡ printed buf.old at (end_line steps)) }
{
    print_counted(buf, at, b"end ", steps as u64)
}

// A refusal's number, and the place in the table's bytes or the clock.
pub fn print_refused(buf: &mut [u8], at: usize, number: u8, place: u64) -> Result<usize, Refusal>
    ensures { (told result ≡ printing buf.old at (refused_line number place)) × (buf.new ≡ printed buf.old at (refused_line number place)) }
{
    let mut text = [0u8; 64];
    let a = put(&mut text, 0, b"refused ");
    let b = put_number(&mut text, a, number as u64);
    let c = put(&mut text, b, b" ");
    let d = put_number(&mut text, c, place);
    let e = put(&mut text, d, b"\n");
    lay(buf, at, &text[..e])
}
