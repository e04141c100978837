// A turn: what has arrived is read, and every whole step of it is answered before the program waits for more.
ghost use Rattle.std.specs.Prelude.{◌+◌, ◌*◌, ◌≤◌, ◌<◌, ◌≡◌, length, take, drop};
ghost use Rattle.table.specs.Legal.{Legal};
ghost use Rattle.state.specs.State.{Fits};
ghost use Rattle.bench.specs.Playing.{Answers, Turned};

use super::output::{complain, say, say_last};
use super::play::play;
use input::{Filled, Reach, read_on};
use scheduler::State;
use std::io::Read;
use table::Table;

// A run after a turn: its state, how many bytes are there of a step that is not whole, and whether more may come. All three stand in
// `Turned`, which says what a turn gives after the last one too.
#[derive(Clone, Copy, Debug, PartialEq, Eq)]
pub struct Turn {
    pub state: State,
    pub have: usize,
    pub open: bool,
}

// Moves n bytes from a place to the front.
fn carry(steps: &mut [u8], from: usize, n: usize)
    requires { from + n ≤ length steps.old }
    ensures { take n steps.new ≡ take n (drop from steps.old) }
{
    steps.copy_within(from..from + n, 0);
}

// Nothing came: the read was interrupted, the input is at its end, where a rest is a step short of bytes, or it failed.
fn without_more(
    rt: &(impl Print + Eprint),
    t: Table,
    s: State,
    got: Filled,
    steps: &[u8],
    out: &mut [u8],
) -> bool
    requires { Legal t × Fits t s × (got.count < t.count) × (t.count ≤ length steps.now) × (length out.old ≡ 65536) }
{
    match got.reach {
        Reach::Part | Reach::Interrupted(_) => true,
        Reach::Failed(error) | Reach::Absent(error) => {
            complain(rt, "standard input", Some(error));
            false
        }
        Reach::Whole => {
            let p = play(t, s, &steps[..got.count], out);
            say_last(rt, out, p.next, p.why, p.state.clock);
            false
        }
    }
}

// Plays the whole steps among the first n bytes and prints their lines; the rest goes to the front.
fn answer_whole(
    rt: &(impl Print + Eprint),
    t: Table,
    s: State,
    n: usize,
    steps: &mut [u8],
    out: &mut [u8],
) -> Turn
    requires { Legal t × Fits t s × (n ≤ 4000 * t.count) × (n ≤ length steps.old) × (length out.old ≡ 65536) }
    ensures { Fits t result.state × (result.have < t.count) × Answers t s n steps.old result steps.new }
{
    let have = n % (t.count as usize);
    let end = n - have;
    let p = play(t, s, &steps[..end], out);
    let state = p.state;
    carry(steps, end, have);
    if p.why.is_some() {
        say_last(rt, out, p.next, p.why, state.clock);
        return Turn {
            state,
            have,
            open: false,
        };
    }
    let open = say(rt, &out[..p.next]);
    Turn { state, have, open }
}

// Reads what has arrived, up to 4,000 steps, and answers every whole step of it.
pub fn take_turn<F: Read>(
    rt: &(impl Print + Eprint),
    from: &mut F,
    t: Table,
    s: State,
    have: usize,
    steps: &mut [u8],
    out: &mut [u8],
) -> Turn
    requires { Legal t × Fits t s × (have < t.count) × (length steps.old ≡ 128000) × (length out.old ≡ 65536) }
    ensures { Fits t result.state × (result.have < t.count) × Turned t s have steps.old result steps.new }
{
    let most = 4000 * (t.count as usize);
    let got = read_on(from, &mut steps[..most], have);
    let n = got.count;
    if n == have {
        let open = without_more(rt, t, s, got, steps, out);
        return Turn {
            state: s,
            have,
            open,
        };
    }
    answer_whole(rt, t, s, n, steps, out)
}
