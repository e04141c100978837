// What a domain is shown, by both sides.
use crate::Kind;
use dice::{below, seldom};
use scheduler::{Answer, State};
use table::Table;
use tally::agreed;

// A domain of the table, seldom one that it lacks.
fn some_domain(seed: u64, t: Table) -> u8 {
    if seldom(seed, 1, 10) {
        return t.domains.wrapping_add(below(seed, 2, 3));
    }
    below(seed, 3, t.domains)
}

// An answer that seldom names no thread.
fn some_answer(seed: u64, t: Table) -> Answer {
    let i = below(seed, 4, t.count.wrapping_add(2));
    if seldom(seed, 5, 8) {
        return Answer::IdleFor(i);
    }
    if seldom(seed, 6, 8) {
        return Answer::Idle;
    }
    Answer::Ran(i)
}

pub fn shown(seed: u64, t: Table) -> Option<Kind> {
    let domain = some_domain(seed, t);
    let a = some_answer(seed, t);
    agreed(
        sight::shown(t, domain, a),
        rival::shown(t, domain, a),
        |view| match view {
            Ok(Some(_)) => Kind::Seen,
            Ok(None) => Kind::Gap,
            Err(_) => Kind::Unshown,
        },
    )
}

pub fn shown_state(seed: u64, t: Table, s: State) -> Option<Kind> {
    let domain = some_domain(seed, t);
    agreed(
        sight::shown_state(t, s, domain),
        rival::shown_state(t, s, domain),
        |threads| {
            if threads.is_ok() {
                Kind::Shown
            } else {
                Kind::Unshown
            }
        },
    )
}
