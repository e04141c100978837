// How often to clean the shared cache: the cleanings of a recorded trace, in a lent list.
#![tactic(auto)]

ghost use Rattle.std.specs.Prelude.{◌≡◌, ◌≤◌, length, drop};
ghost use Rattle.cleaning.specs.Cleanings.{nobody, latest, last_run, cleaned, known, listing, outcome};
ghost use Rattle.cleaning.specs.Scan.{first, Ways, passes, barred, scanned, following, pasted, tallied, reported};

use basis::Refusal;
use flow::row;
use table::{Table, legal};

// At a step, between the thread that last ran before it and the thread that runs.
#[derive(Clone, Copy, Debug, PartialEq, Eq)]
pub struct Cleaning {
    pub step: u64,
    pub before: u8,
    pub after: u8,
}

// The domain of each thread, and 32 places on the row of that domain: lent to the scan, so that no step copies a table.
fn ways_of(t: Table) -> [u16; 64]
    ensures { Ways t result }
{
    let rows = t.rows;
    let mut w = [0u16; 64];
    for i in 0..32usize {
        let th = t.threads[i];
        w[i] = th.domain as u16;
        w[32 + i] = row(rows, th.domain);
    }
    w
}

// Whether thread a's domain may flow to thread b's.
fn may_pass(w: &[u16; 64], a: u8, b: u8) -> bool
    ensures { result ≡ passes w.now a b }
{
    let from = w[32 + a as usize % 32];
    let to = w[b as usize % 32];
    (from >> (to % 16)) % 2 == 1
}

// Whether the cache is to be cleaned at byte b, where a is who last ran before it.
#[tactic(auto, unfolding(crate::specs::Scan::barred))]
fn must_clean(n: u8, w: &[u16; 64], a: u8, b: u8) -> bool
    ensures { result ≡ barred n w.now a b }
{
    b < n && a < n && a != b && !may_pass(w, a, b)
}

// Who last ran after a byte.
#[tactic(auto, unfolding(crate::specs::Cleanings::latest, basis::specs::Tests::pick))]
fn latest_of(n: u8, last: u8, byte: u8) -> u8
    ensures { result ≡ latest n last byte }
{
    if byte < n { byte } else { last }
}

// The first cleaning at or after a step, if there is one, where thread `last` ran before it.
fn scan(n: u8, w: &[u16; 64], trace: &[u8], from: usize, last: u8) -> Option<Cleaning>
    ensures { result ≡ first (cleaned (barred n w.now) n from last (drop from trace.now)) }
{
    let mut a = last;
    for i in from..trace.len() {
        let b = trace[i];
        if must_clean(n, w, a, b) {
            return Some(Cleaning {
                step: i as u64,
                before: a,
                after: b,
            });
        }
        a = latest_of(n, a, b);
    }
    None
}

// The first cleaning of a trace.
fn start(n: u8, w: &[u16; 64], trace: &[u8]) -> Option<Cleaning>
    ensures { result ≡ first (scanned n w.now trace.now) }
{
    scan(n, w, trace, 0, 255)
}

// The cleaning that follows another.
fn next(n: u8, w: &[u16; 64], trace: &[u8], c: Cleaning) -> Option<Cleaning>
    ensures { result ≡ following n w.now trace.now c }
{
    let at = c.step;
    if at < trace.len() as u64 {
        return scan(n, w, trace, at as usize + 1, c.after);
    }
    None
}

// The first m cleanings of a trace go to the front of the list, in order.
fn fill(list: &mut [Cleaning], n: u8, w: &[u16; 64], trace: &[u8], m: usize)
    requires { (m ≤ length list.old) × (m ≤ length (scanned n w.now trace.now)) }
    ensures { list.new ≡ pasted m (scanned n w.now trace.now) list.old }
{
    let mut found = start(n, w, trace);
    for k in 0..m {
        if let Some(c) = found {
            list[k] = c;
            found = next(n, w, trace, c);
        }
    }
}

// The byte names a thread of the table, or is 255.
#[tactic(auto, unfolding(crate::specs::Cleanings::known))]
fn is_known(count: u8, b: u8) -> bool
    ensures { result ≡ known count b }
{
    let x = b as u32;
    let n = count as u32;
    // the common case first: as three tests in a row the pass over a trace took 1.5 times as long
    x < n || 32 <= x && (x < 32 + n || x == 255)
}

// One pass: how many cleanings a trace has, if each of its bytes passes.
fn tally(n: u8, w: &[u16; 64], trace: &[u8]) -> Result<usize, Refusal>
    ensures { result ≡ tallied n w.now trace.now }
{
    let mut m: usize = 0;
    let mut a: u8 = 255;
    for i in 0..trace.len() {
        let b = trace[i];
        if !is_known(n, b) {
            return Err(Refusal::TraceByte);
        }
        if must_clean(n, w, a, b) {
            m += 1;
        }
        a = latest_of(n, a, b);
    }
    Ok(m)
}

// The answer for a list of so many places.
fn judge(t: Table, trace: &[u8], places: usize) -> Result<usize, Refusal>
    ensures { result ≡ reported t trace.now places }
{
    if !legal(t) {
        return Err(Refusal::NotLegal);
    }
    let w = ways_of(t);
    let m = tally(t.count, &w, trace)?;
    if places < m {
        return Err(Refusal::NoRoom);
    }
    Ok(m)
}

// The cleanings of a trace, in the first places of the list: 11, 21, 16, or how many they are.
pub fn clean(list: &mut [Cleaning], t: Table, trace: &[u8]) -> Result<usize, Refusal>
    ensures { outcome result list.new ≡ listing t trace.now list.old }
{
    let m = judge(t, trace, list.len())?;
    let w = ways_of(t);
    fill(list, t.count, &w, trace, m);
    Ok(m)
}

// The thread that last ran in a trace, or 255: the byte that the next part of a long trace begins with.
pub fn last_runner(t: Table, trace: &[u8]) -> u8
    ensures { result ≡ last_run t nobody trace.now }
{
    let mut a: u8 = 255;
    for i in 0..trace.len() {
        a = latest_of(t.count, a, trace[i]);
    }
    a
}
