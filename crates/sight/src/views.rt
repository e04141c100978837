// What a domain may see.
ghost use Rattle.std.specs.Prelude.{◌≡◌, ◌<◌, ◌≤◌};
ghost use Rattle.sight.specs.Shown.{visible, view as the_view, told_view, seen_progress, seen_threads};

use super::View;
use flow::may_flow;
use state::{Progress, State, no_progress};
use table::Table;
use walk::Answer;

// Whether i is a thread of the table whose domain may flow to d.
#[tactic(auto, unfolding(crate::specs::Shown::visible, table::specs::Mark::seen_by))]
pub fn is_visible(t: Table, d: u8, i: u8) -> bool
    requires { t.count ≤ 32 }
    ensures { result ≡ visible t d i }
{
    if t.count <= i {
        return false;
    }
    let th = t.threads[i as usize];
    let rows = t.rows;
    may_flow(rows, th.domain, d)
}

// The thread that ran, if d may see it, or a gap.
#[tactic(auto, unfolding(crate::specs::Shown::view, basis::specs::Tests::pick))]
pub fn view(t: Table, d: u8, a: Answer) -> View
    requires { t.count ≤ 32 }
    ensures { told_view result ≡ the_view t d a }
{
    match a {
        Answer::Ran(i) => {
            if is_visible(t, d, i) {
                return Some(i);
            }
            None
        }
        Answer::IdleFor(_) => None,
        Answer::Idle => None,
    }
}

#[tactic(auto, unfolding(crate::specs::Shown::seen_progress, basis::specs::Tests::pick))]
fn seen(t: Table, d: u8, s: State, i: u8) -> Progress
    requires { (t.count ≤ 32) × (i < 32) }
    ensures { result ≡ seen_progress t d s i }
{
    let mut p = s.threads[i as usize];
    let hidden = no_progress();
    if is_visible(t, d, i) {
        p.since = 0;
        return p;
    }
    hidden
}

// The progress of each thread that d may see, but for its steps since release, and zeros for the others.
pub fn seen_threads(t: Table, d: u8, s: State) -> [Progress; 32]
    requires { t.count ≤ 32 }
    ensures { result ≡ seen_threads t d s }
{
    let none = no_progress();
    let mut out = [none; 32];
    for i in 0..32u8 {
        out[i as usize] = seen(t, d, s, i);
    }
    out
}
