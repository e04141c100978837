// The walk: parts 2 to 4 of a step.
ghost use Rattle.std.specs.Prelude.{◌≡◌, ◌<◌, ◌≤◌, length};
ghost use Rattle.state.specs.State.{progress};
ghost use Rattle.state.specs.Given.{Counted};
ghost use Rattle.order.specs.Order.{ranked, Below};
ghost use Rattle.walk.specs.Walk.{runs, chosen, decided, visit, walk as the-walk};

use super::{Answer, Walked};
use order::Ranks;
use state::{Progress, State};
use table::Mark;

// Whether a reached thread with this byte and progress runs.
#[tactic(auto, unfolding(crate::specs::Walk::runs))]
fn runs(b: u8, p: Progress) -> bool
    ensures { result ≡ runs b p }
{
    b == 1 && !p.finished && 0 < p.execution
}

// Whether the walk ends with this answer.
fn is_chosen(a: Answer) -> bool
    ensures { result ≡ chosen a }
{
    a != Answer::Idle
}

// A thread that was heard pays, and runs, or the processor idles on its account, or the walk goes on.
fn decide(marks: [Mark; 32], s: State, i: u8, b: u8) -> Walked
    requires { (i < 32) × (0 < (progress s i).rest) × Counted 999999999 s }
    ensures { result ≡ decided marks b i s }
{
    let p = s.threads[i as usize];
    let paid = s.pay(i);
    if runs(b, p) {
        let ran = paid.count(i);
        return Walked {
            answer: Answer::Ran(i),
            state: ran,
        };
    }
    if marks[i as usize].is_some() {
        return Walked {
            answer: Answer::IdleFor(i),
            state: paid,
        };
    }
    Walked {
        answer: Answer::Idle,
        state: paid,
    }
}

// The walk comes to thread i, whose byte is b.
fn visit(marks: [Mark; 32], s: State, i: u8, b: u8) -> Walked
    requires { (i < 32) × Counted 999999999 s }
    ensures { result ≡ visit marks b i s }
{
    let p = s.threads[i as usize];
    if p.rest == 0 {
        return Walked {
            answer: Answer::Idle,
            state: s,
        };
    }
    if b == 2 {
        return decide(marks, s.finish(i), i, b);
    }
    decide(marks, s, i, b)
}

// The walk over the ranked threads, left at the first that is chosen.
pub fn walk(marks: [Mark; 32], s: State, o: Ranks, bytes: &[u8]) -> Walked
    requires count_bound { (o.count ≤ 32) × Below (length bytes.now) (ranked o) }
    requires counted { Counted 999999999 s × (length bytes.now ≤ 32) }
    ensures { result ≡ the-walk marks bytes.now (ranked o) s }
{
    let mut next = s;
    for k in 0..o.count as usize {
        let i = o.at[k];
        let v = visit(marks, next, i, bytes[i as usize]);
        if is_chosen(v.answer) {
            return v;
        }
        next = v.state;
    }
    Walked {
        answer: Answer::Idle,
        state: next,
    }
}
