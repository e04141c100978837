// A second admission, written from documents 01 and 02 alone: a plain search over every length.
#![tactic(auto)]

use admission::{Admission, Search};
use basis::Refusal;
use rival_table::{legal, unless};
use table::{Table, Thread};

fn product(a: u16, b: u16) -> u64 {
    a as u64 * b as u64
}

fn long_product(a: u32, b: u16) -> u64 {
    a as u64 * b as u64
}

// A share for each of the periods p that it takes to fill a length: the whole ones, and one more where they fall short.
fn shares(length: u16, p: u16, share: u16) -> u64 {
    if p == 0 {
        return 0;
    }
    let whole = product(length / p, share);
    if length % p == 0 {
        return whole;
    }
    whole.wrapping_add(share as u64)
}

// The sum of what each thread above a thread takes of it, by the place and the thread.
fn sum_above<Take: Fn(usize, Thread) -> u64>(t: Table, own: Thread, take: Take) -> u64
    requires { Take.IsAlwaysCallable take }
{
    let mut sum: u64 = 0;
    for place in 0..t.count {
        let i = place as usize % 32;
        let h = t.threads[i];
        if h.priority > own.priority {
            sum = sum.wrapping_add(take(i, h));
        }
    }
    sum
}

// Whether a demand is at most a length.
fn is_held(demand: u64, x: u16) -> bool {
    demand <= x as u64
}

// W of a thread, and what each thread above it wants in x steps.
fn demand(t: Table, own: Thread, x: u16) -> u64 {
    sum_above(t, own, |_, h| shares(x, h.period, h.budget)).wrapping_add(own.budget as u64)
}

// From W to D the smallest x whose demand is at most x.
fn plain_bound(t: Table, own: Thread) -> Option<u16> {
    (own.budget..=own.deadline).find(|x| is_held(demand(t, own, *x), *x))
}

// How many lengths from W to D are tried, on a pass over all of them: W is, and so is each that is the demand of a length tried, up to
// the first whose demand is at most itself.
fn tried_of(t: Table, own: Thread) -> u16 {
    let mut awaited = own.budget as u64;
    let mut tried: u16 = 0;
    for x in own.budget..=own.deadline {
        if x as u64 == awaited {
            awaited = demand(t, own, x);
            tried = tried.wrapping_add(1);
            if is_held(awaited, x) {
                return tried;
            }
        }
    }
    tried
}

// The same of thread i of any table.
pub fn lengths_tried(t: Table, i: u8) -> u16 {
    tried_of(t, t.threads[i as usize % 32])
}

// Thread i of a legal table; refuses with 11, 15.
fn thread(t: Table, i: u8) -> Result<Thread, Refusal> {
    unless(legal(t), Refusal::NotLegal)?;
    unless(i < t.count, Refusal::Missing)?;
    Ok(t.threads[i as usize % 32])
}

// The bound of thread i, if it has one; refuses with 11, 15.
pub fn bound(t: Table, i: u8) -> Result<Option<u16>, Refusal> {
    Ok(plain_bound(t, thread(t, i)?))
}

fn search(t: Table, own: Thread) -> Search {
    Search {
        bound: plain_bound(t, own),
        tried: tried_of(t, own),
    }
}

// The bound of thread i, and how many lengths are tried; refuses with 11, 15.
pub fn bound_of(t: Table, i: u8) -> Result<Search, Refusal> {
    Ok(search(t, thread(t, i)?))
}

// All bounds, or the first thread that has none, and zeros; the lengths tried for each thread that was searched. Refuses with 11.
pub fn admit(t: Table) -> Result<Admission, Refusal> {
    unless(legal(t), Refusal::NotLegal)?;
    let mut bounds = [0u16; 32];
    let mut tried = [0u16; 32];
    for i in 0..t.count {
        let place = i as usize % 32;
        let found = search(t, t.threads[place]);
        tried[place] = found.tried;
        let Some(x) = found.bound else {
            return Ok(Admission {
                without: Some(i),
                bounds: [0; 32],
                tried,
            });
        };
        bounds[place] = x;
    }
    Ok(Admission {
        without: None,
        bounds,
        tried,
    })
}

// The most lengths that the searches of a table can try: all deadlines less all budgets, and one for each thread. Refuses with 11.
pub fn worst_count(t: Table) -> Result<u32, Refusal> {
    unless(legal(t), Refusal::NotLegal)?;
    let mut sum = t.count as u32;
    for f in &t.threads {
        sum = sum
            .wrapping_add(f.deadline as u32)
            .wrapping_sub(f.budget as u32);
    }
    Ok(sum)
}

// The prohibition time of thread l: of each marked thread above it B for each P of that thread that it takes to fill P of l. Refuses
// with 11, 15.
pub fn prohibition(t: Table, l: u8) -> Result<u64, Refusal> {
    let own = thread(t, l)?;
    let marks = rival_table::marks(t)?;
    Ok(sum_above(t, own, |i, h| {
        if marks[i % 32].is_none() {
            return 0;
        }
        shares(own.period, h.period, h.blocking)
    }))
}

// The most idle steps on thread h's account in so many steps: W of h for each P of h that fits into them, once more for a part of a
// period, and once more again. Refuses with 11, 15.
pub fn idle_most(t: Table, h: u8, length: u32) -> Result<u64, Refusal> {
    let f = thread(t, h)?;
    let p = f.period as u32;
    if p == 0 {
        return Ok(0);
    }
    let whole = long_product(length / p, f.budget);
    let again = whole.wrapping_add(f.budget as u64);
    if length % p == 0 {
        return Ok(again);
    }
    Ok(again.wrapping_add(f.budget as u64))
}

// Whether a table has a long period, so that the plain search takes long.
pub fn is_long(t: Table) -> bool {
    t.threads.iter().any(|f| f.period > 1000)
}
