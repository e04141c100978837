// The test of a table that is handed in.
ghost use Rattle.std.specs.Prelude.{◌≡◌, ◌≤◌, ◌<◌, not};
ghost use Rattle.basis.specs.Tests.{pick, and, every};
ghost use Rattle.table.specs.Legal.{row_legal, thread_ok, thread_zero, taken, place_legal, legal};

use super::ranges::{field_ranges, fields, in_range};
use super::{DOMAIN_COUNTS, FIELDS, THREAD_COUNTS, Table, Thread, VERSIONS};
use flow::{first_gap, row_passes};

// Whether one of the first n threads has the priority p.
pub fn is_taken(threads: [Thread; 32], n: u8, p: u16) -> bool
    requires { n ≤ 32 }
    ensures { result ≡ taken threads n p }
{
    for j in 0..n {
        let th = threads[j as usize];
        if th.priority as u16 == p {
            return true;
        }
    }
    false
}

fn thread_passes(version: u8, domains: u8, th: Thread) -> bool
    ensures { result ≡ thread_ok version domains th }
{
    let vs = fields(th);
    let ranges = field_ranges(version, domains, th.period, th.offset, th.budget);
    for k in 0..FIELDS {
        if !in_range(ranges[k], vs[k]) {
            return false;
        }
    }
    true
}

fn thread_is_zero(th: Thread) -> bool
    ensures { result ≡ thread_zero th }
{
    let vs = fields(th);
    for k in 0..FIELDS {
        if vs[k] != 0 {
            return false;
        }
    }
    true
}

#[tactic(auto, unfolding(crate::specs::Legal::row_legal, basis::specs::Tests::pick))]
fn row_is_legal(rows: [u16; 16], domains: u8, i: u8) -> bool
    requires { i < 16 }
    ensures { result ≡ row_legal rows domains i }
{
    let v = rows[i as usize];
    if i < domains {
        row_passes(domains, i, v)
    } else {
        v == 0
    }
}

fn rows_are_legal(rows: [u16; 16], domains: u8) -> bool
    ensures { result ≡ every 16 (row_legal rows domains) }
{
    for i in 0..16u8 {
        if !row_is_legal(rows, domains, i) {
            return false;
        }
    }
    true
}

// Whether what stands in a place is legal: a thread in range with a priority not taken, or zero where no thread is.
#[tactic(auto, unfolding(basis::specs::Tests::pick))]
fn place_is_legal(th: Thread, version: u8, domains: u8, used: bool, taken: bool) -> bool
    ensures { result ≡ pick used (and (thread_ok version domains th) (not taken)) (thread_zero th) }
{
    if used {
        thread_passes(version, domains, th) && !taken
    } else {
        thread_is_zero(th)
    }
}

// The priorities that stand in earlier places are kept, so that none is searched for.
fn places_are_legal(t: Table) -> bool
    ensures { result ≡ every 32 (place_legal t) }
{
    let mut taken = [false; 256];
    for i in 0..32u8 {
        let th = t.threads[i as usize];
        let p = th.priority as usize;
        if !place_is_legal(th, t.version, t.domains, i < t.count, taken[p]) {
            return false;
        }
        taken[p] = true;
    }
    true
}

#[tactic(auto, unfolding(crate::specs::Legal::legal))]
pub fn table_passes(t: Table) -> bool
    ensures { result ≡ legal t }
{
    in_range(VERSIONS, u16::from(t.version))
        && in_range(DOMAIN_COUNTS, u16::from(t.domains))
        && in_range(THREAD_COUNTS, u16::from(t.count))
        && rows_are_legal(t.rows, t.domains)
        && first_gap(t.rows, t.domains).is_none()
        && places_are_legal(t)
}
