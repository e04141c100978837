// Program bench: a table from table.bin, step bytes from standard input, and a line a step to standard output.
#![tactic(auto)]

ghost use Rattle.table.specs.Legal.{Legal};

use scheduler::fresh;
use table::Table;

mod output;
mod play;
mod turn;

use input::load;
use output::{complain, say_refused, say_threads};
use std::rt::Files;
use turn::take_turn;

// Turn after turn, until one is the last. Each took a byte or was interrupted, and the clock allows 32,000,000,000 bytes; interruptions
// might never end, so turns are counted.
fn run(rt: &(impl Print + Eprint + Input), t: Table)
    requires { Legal t }
{
    let mut steps = [0u8; 128000];
    let mut out = [0u8; 65536];
    let mut from = rt.reader();
    let Ok(mut s) = fresh(t) else { unreachable!() };
    let mut have = 0;
    if !say_threads(rt, &mut out, t.count) {
        return;
    }
    for _ in 0..1000000000000000000u64 {
        let r = take_turn(rt, &mut from, t, s, have, &mut steps, &mut out);
        if !r.open {
            return;
        }
        s = r.state;
        have = r.have;
    }
}

// The verdict on the table's bytes: one line for a refusal, else the run.
fn judge(rt: &(impl Print + Eprint + Input), bytes: &[u8]) {
    match codec::read(bytes) {
        Ok(t) => run(rt, t),
        Err(fault) => say_refused(rt, fault.why, fault.place as u64),
    }
}

// The first 1,024 bytes of a file have the verdict of the whole: 826 do, by `reading-front` of crate codec, since no more
// than 275 numbers of three bytes each are read, and then it only matters whether one more byte is there.
fn run_table(rt: &(impl Print + Eprint + Input + Files)) {
    let mut bytes = [0u8; 1024];
    let got = load(rt, &mut bytes);
    if !got.reach.is_whole() {
        complain(rt, "table.bin", got.reach.error());
        return;
    }
    judge(rt, &bytes[..got.count]);
}

fn main(rt: HostRuntime) {
    run_table(&rt);
}
