// The walk, and one step of a table that is known to be legal: prepared once, and then advanced.
#![tactic(auto)]

ghost use Rattle.std.specs.Prelude.{◌≡◌, ◌<◌, ◌≤◌, length};
ghost use Rattle.table.specs.Mark.{marks_of};
ghost use Rattle.state.specs.State.{last_clock, Fits};
ghost use Rattle.state.specs.Given.{Usable};
ghost use Rattle.order.specs.Order.{order, ranked, Below};
ghost use Rattle.order.specs.Open.{open_to};
ghost use Rattle.walk.specs.Step.{advance, marks_in};

use order::{Ranks, open_to, rank};
use state::State;
use table::{Mark, Table, mark_all};

mod visits;

use visits::walk;

// What a step chose: a thread that ran, a thread on whose account the processor idled, or nobody.
#[derive(Clone, Copy, Debug, PartialEq, Eq)]
pub enum Answer {
    Ran(u8),
    IdleFor(u8),
    Idle,
}

// What a walk gives: its answer, and the state behind it.
#[derive(Clone, Copy, Debug, PartialEq, Eq)]
pub struct Walked {
    pub answer: Answer,
    pub state: State,
}

// What a table's steps need and share: the order of the walk and the leak marks.
#[derive(Clone, Copy, Debug, PartialEq, Eq)]
pub struct Prepared {
    pub order: Ranks,
    pub marks: [Mark; 32],
}

// The order and the marks of a table that is known to be legal.
pub fn prepare(t: Table) -> Prepared
    requires { t.count ≤ 32 }
    ensures { (result.order.count ≤ 32) × (ranked result.order ≡ order t) × (result.marks ≡ marks_of t) }
{
    Prepared {
        order: rank(t),
        marks: mark_all(t),
    }
}

// The same for a window of domain d: the walk goes over the threads that are open to d, with the window's marks.
pub fn narrow(t: Table, p: Prepared, d: u8) -> Prepared
    requires { (t.count ≤ 32) × (p.order.count ≤ 32) × Below t.count (ranked p.order) × (p.marks ≡ marks_of t) }
    ensures { (result.order.count ≤ 32) × (ranked result.order ≡ open_to t d (ranked p.order)) × (result.marks ≡ marks_in t d) }
{
    let marks = p.marks;
    Prepared {
        order: open_to(t, p.order, d),
        marks,
    }
}

// One step of a legal table from a fitting state, with a mask of events and one byte a thread.
pub fn advance(t: Table, p: Prepared, s: State, mask: u32, bytes: &[u8]) -> Walked
    requires usable { Usable t }
    requires count_bound { (p.order.count ≤ 32) × Below (length bytes.now) (ranked p.order) }
    requires fits { Fits t s × (s.clock < last_clock) × (length bytes.now ≤ 32) }
    ensures { result ≡ advance t p.marks (ranked p.order) (record { mask = mask; bytes = bytes.now }) s }
{
    let w = walk(p.marks, s.release(t, mask), p.order, bytes);
    Walked {
        answer: w.answer,
        state: w.state.tick(t),
    }
}
