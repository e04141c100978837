// A second reading of Q-11. It shares types with the first, and neither a function nor a definition: each step looks back for itself for
// who ran last.
#![tactic(auto)]

use basis::Refusal;
use cleaning::Cleaning;
use listed::Listed;
use table::Table;

// Whether the domain of thread a may flow to that of thread b.
fn flows(t: Table, a: u8, b: u8) -> bool {
    let p = t.threads[a as usize % 32];
    let q = t.threads[b as usize % 32];
    (t.rows[p.domain as usize % 16] >> (q.domain % 16)) % 2 == 1
}

// Who ran last in a part of a trace, if anyone did.
pub fn latest(t: Table, past: &[u8]) -> Option<u8> {
    past.iter().rev().copied().find(|b| *b < t.count)
}

// The cleaning at step k, if one is due there.
pub fn due_at(t: Table, trace: &[u8], k: usize) -> Option<Cleaning> {
    let after = *trace.get(k)?;
    let before = latest(t, trace.get(..k)?)?;
    if t.count <= after || before == after || flows(t, before, after) {
        return None;
    }
    Some(Cleaning {
        step: k as u64,
        before,
        after,
    })
}

// Whether a byte names one of so many threads, or is 255.
pub fn is_named(count: u8, b: u8) -> bool {
    b == 255 || (b < 64 && b % 32 < count)
}

// The list is written to only where all of it is there.
fn fill(list: &mut [Cleaning; 64], t: Table, trace: &[u8]) -> Result<usize, Refusal> {
    if !trace.iter().all(|b| is_named(t.count, *b)) {
        return Err(Refusal::TraceByte);
    }
    let steps = 0..trace.len();
    let due = steps.filter(|k| due_at(t, trace, *k).is_some()).count();
    if 64 < due {
        return Err(Refusal::NoRoom);
    }
    let steps = 0..trace.len();
    for (place, c) in list
        .iter_mut()
        .zip(steps.filter_map(|k| due_at(t, trace, k)))
    {
        *place = c;
    }
    Ok(due)
}

// The cleanings of a trace of a legal table.
pub fn make_list(t: Table, trace: &[u8]) -> Listed {
    let none = Cleaning {
        step: 0,
        before: 0,
        after: 0,
    };
    let mut list = [none; 64];
    let outcome = fill(&mut list, t, trace);
    Listed { outcome, list }
}
