// A second reading of document 02 on mending a flow policy. It shares types with the first, and neither a function nor a definition: a
// row is a set, and the sets are squared, so that ways of 2, 4, 8 and then 16 legs are there.
#![tactic(auto)]

use mend::{Mended, Unmendable};

// The set of domain j alone.
pub fn only(j: u8) -> u16 {
    1u16 << j % 16
}

pub fn has(set: u16, j: u8) -> bool {
    set | only(j) == set
}

// What a set's domains may flow to, in one leg more.
fn reached(rows: [u16; 16], from: u16) -> u16 {
    let mut to = from;
    for (b, row) in (0..16).zip(&rows) {
        if has(from, b) {
            to |= *row;
        }
    }
    to
}

fn squared(rows: [u16; 16]) -> [u16; 16] {
    rows.map(|set| reached(rows, set))
}

fn closed(rows: [u16; 16]) -> [u16; 16] {
    squared(squared(squared(squared(rows))))
}

// Only domains that are there, its own among them.
fn row_is_good(set: u16, domains: u8, i: u8) -> bool {
    has(set, i) && !(domains..16).any(|j| has(set, j))
}

// The first row that is not good, if there is one.
fn first_bad(rows: [u16; 16], domains: u8) -> Option<u8> {
    (0..domains)
        .zip(rows)
        .find(|(i, set)| !row_is_good(*set, domains, *i))
        .map(|(i, _)| i)
}

// Whether rows have a pair, which is 16 times its source plus its target.
fn has_pair(rows: [u16; 16], pair: u8) -> bool {
    has(rows[pair as usize / 16], pair % 16)
}

fn is_new(some: [u16; 16], all: [u16; 16], pair: u8) -> bool {
    has_pair(all, pair) && !has_pair(some, pair)
}

// The list is written to only where it is long enough.
pub fn mend(given: &[u16], pairs: &mut [u8]) -> Result<Mended, Unmendable> {
    let n = given.len();
    if n == 0 || 16 < n {
        return Err(Unmendable::BadCount);
    }
    let mut rows = [0; 16];
    rows[..n].copy_from_slice(given);
    if let Some(i) = first_bad(rows, n as u8) {
        return Err(Unmendable::BadRow(i));
    }
    let all = closed(rows);
    let added = (0..=255).filter(|c| is_new(rows, all, *c)).count();
    if pairs.len() < added {
        return Err(Unmendable::NoRoom);
    }
    for (place, c) in pairs
        .iter_mut()
        .zip((0..=255).filter(|c| is_new(rows, all, *c)))
    {
        *place = c;
    }
    Ok(Mended { added, rows: all })
}
