// Writing whole lines to standard output.
ghost use Rattle.std.specs.Prelude.{◌≡◌};
ghost use Rattle.block.specs.Block.{number_of};
ghost use Rattle.report.specs.Printing.{told, printing, printed};
ghost use Rattle.bench.specs.Text.{last_line};

use basis::Refusal;
use std::io;
use std::io::Write;

// Says on standard error what went wrong with what, and why where an error tells; where that cannot be said, nobody is left to tell.
pub fn complain(rt: &impl Eprint, what: &str, error: Option<io::Error>) {
    let _ = match error {
        Some(error) => eprintln!(rt; "bench: {what}: {error}"),
        None => eprintln!(rt; "bench: {what}"),
    };
}

// Writes text, or says on standard error why it could not; after that nothing more may be written.
pub fn say(rt: &(impl Print + Eprint), text: &[u8]) -> bool {
    let mut to = io::writer(rt);
    match to.write_all(text) {
        Ok(_) => true,
        Err(error) => {
            complain(rt, "standard output", Some(error));
            false
        }
    }
}

// Writes what stands before the place after a printed line.
fn say_printed(rt: &(impl Print + Eprint), out: &[u8], printed: Result<usize, Refusal>) -> bool {
    match printed {
        Ok(next) if next <= out.len() => say(rt, &out[..next]),
        _ => false,
    }
}

pub fn say_threads(rt: &(impl Print + Eprint), out: &mut [u8], threads: u8) -> bool {
    let p = report::print_threads(out, 0, threads);
    say_printed(rt, out, p)
}

pub fn say_refused(rt: &(impl Print + Eprint), why: Refusal, place: u64) {
    let mut out = [0u8; 64];
    let p = report::print_refused(&mut out, 0, u8::from(why), place);
    say_printed(rt, &out, p);
}

// The last line: how many steps, or the refusal.
#[tactic(auto, unfolding(crate::specs::Text::last_line, basis::specs::Tests::pick))]
fn put_last(out: &mut [u8], at: usize, why: Option<Refusal>, clock: u32) -> Result<usize, Refusal>
    ensures { (told result ≡ printing out.old at (last_line (number_of why) clock)) × (out.new ≡ printed out.old at (last_line (number_of why) clock)) }
{
    match why {
        None => report::print_end(out, at, clock),
        Some(why) => report::print_refused(out, at, u8::from(why), clock as u64),
    }
}

// Writes the lines that stand before the place at, and the last line behind them.
pub fn say_last(
    rt: &(impl Print + Eprint),
    out: &mut [u8],
    at: usize,
    why: Option<Refusal>,
    clock: u32,
) {
    let p = put_last(out, at, why, clock);
    say_printed(rt, out, p);
}
