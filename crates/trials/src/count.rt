// What admission answers, held against the plain search and counted.
use admission::{Admission, Search};
use basis::Refusal;
use table::Table;
use tally::{Tally, WRONG, count};

#[derive(Clone, Copy, Debug, PartialEq, Eq)]
pub enum Kind {
    Admitted,
    Without,
    Refused,
    Found,
    Unbounded,
    NoThread,
    Prohibited,
}

impl From<Kind> for u32 {
    fn from(kind: Kind) -> u32 {
        kind as u32
    }
}

// How much of each kind there was, and the most demands of one thread.
#[derive(Clone, Copy)]
pub struct Counts {
    pub tally: Tally,
    pub worst: u16,
}

fn is_figure(t: Table, h: u8, length: u32) -> bool {
    admission::idle_most(t, h, length) == rival_bounds::idle_most(t, h, length)
}

// The most idle steps on a thread's account: in no step, one period, a step more and a step less, some other length, and the longest.
fn is_idle(t: Table, h: u8, some: u32) -> bool {
    let period = t.threads[h as usize % 32].period as u32;
    [
        0,
        period,
        period.wrapping_add(1),
        period.wrapping_sub(1),
        some,
        4294967295,
    ]
    .iter()
    .all(|length| is_figure(t, h, *length))
}

// A search works out at most D - W + 1 demands.
fn is_short(t: Table, i: u8, tried: u16) -> bool {
    let f = t.threads[i as usize % 32];
    tried as u32 <= f.deadline.wrapping_sub(f.budget) as u32 + 1
}

// The number of a bound: none is 0, and a refusal 100,000 and its number.
fn bound_number(found: Result<Search, Refusal>) -> u32 {
    match found {
        Ok(search) => search.bound.unwrap_or(0) as u32,
        Err(why) => 100000 + u8::from(why) as u32,
    }
}

fn kind_of_search(found: Result<Search, Refusal>) -> Option<Kind> {
    match found {
        Ok(search) if search.bound.is_some() => Some(Kind::Found),
        Ok(_) => Some(Kind::Unbounded),
        Err(Refusal::Missing) => Some(Kind::NoThread),
        Err(_) => None,
    }
}

fn count_if(tally: &mut Tally, kind: Option<Kind>) {
    if let Some(kind) = kind {
        count(tally, kind);
    }
}

// The calls that name a thread.
fn thread(y: &mut Counts, t: Table, i: u8) {
    let found = rival_bounds::bound_of(t, i);
    let time = rival_bounds::prohibition(t, i);
    let tried = found.map_or(0, |search| search.tried);
    let some = bound_number(found).wrapping_add(tried as u32);
    let good = admission::bound_of(t, i) == found
        && admission::prohibition(t, i) == time
        && is_idle(t, i, some)
        && (found.is_err() || is_short(t, i, tried));
    count_if(&mut y.tally, kind_of_search(found));
    if time.is_ok_and(|steps| steps != 0) {
        count(&mut y.tally, Kind::Prohibited);
    }
    if !good {
        count(&mut y.tally, WRONG);
    }
    y.worst = y.worst.max(tried);
}

// All counts of an admission together.
fn together(theirs: Result<Admission, Refusal>) -> u32 {
    theirs.map_or(0, |admission| {
        admission
            .tried
            .iter()
            .fold(0u32, |sum, tried| sum.wrapping_add(*tried as u32))
    })
}

// Whether admission answers as the plain search does, and the counts are together at most the worst count.
fn is_same(t: Table, theirs: Result<Admission, Refusal>) -> bool {
    let worst = rival_bounds::worst_count(t);
    admission::admit(t) == theirs
        && admission::worst_count(t) == worst
        && worst.map_or(true, |most| together(theirs) <= most)
}

fn kind_of_admission(theirs: Result<Admission, Refusal>) -> Kind {
    match theirs {
        Ok(admission) if admission.without.is_none() => Kind::Admitted,
        Ok(_) => Kind::Without,
        Err(_) => Kind::Refused,
    }
}

// All threads of the table, and two that it lacks.
pub fn table(y: &mut Counts, t: Table) {
    let theirs = rival_bounds::admit(t);
    count(&mut y.tally, kind_of_admission(theirs));
    if !is_same(t, theirs) {
        count(&mut y.tally, WRONG);
    }
    for i in 0..=t.count % 34 {
        thread(y, t, i);
    }
    thread(y, t, 255);
}
