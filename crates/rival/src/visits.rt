// The walk, by falling priority.
use crate::events::has;
use rival_table::{leaks, order};
use scheduler::{Answer, Progress, State};
use table::Table;

// A reached thread pays one, and a 2 sets its finish mark.
fn paid(p: Progress, byte: u8) -> Progress {
    Progress {
        rest: p.rest.wrapping_sub(1),
        finished: p.finished || byte == 2,
        ..p
    }
}

// Thread i is reached with a rest above 0: a 1 runs, unless the finish mark is set or no execution is left. The answer, if the walk ends
// here.
fn reach(now: Progress, i: u8, byte: u8, leaks: bool) -> (Option<Answer>, Progress) {
    let mut p = paid(now, byte);
    if byte == 1 && !p.finished && p.execution != 0 {
        p.execution = p.execution.wrapping_sub(1);
        p.ran = p.ran.wrapping_add(1);
        return (Some(Answer::Ran(i)), p);
    }
    (leaks.then_some(Answer::IdleFor(i)), p)
}

// The walk over a set of threads: it passes a rest of 0, and goes no further once somebody is chosen. The marks are those of the whole
// table.
pub fn walk(t: Table, s: State, among: u32, bytes: &[u8]) -> (Answer, State) {
    let by_priority = order(t);
    let marks = leaks(t, by_priority);
    let mut next = s;
    for i in by_priority.into_iter().flatten() {
        let place = i as usize % 32;
        let p = next.threads[place];
        if has(among, i) && p.rest != 0 {
            let byte = bytes.get(i as usize).copied().unwrap_or(0);
            let (chosen, p) = reach(p, i, byte, marks[place]);
            next.threads[place] = p;
            if let Some(answer) = chosen {
                return (answer, next);
            }
        }
    }
    (Answer::Idle, next)
}
