// Random legal tables of both versions.
use dice::{any, below, between, part, seldom};
use table::{Table, Thread};

// A quarter small, a quarter with every place taken.
fn size(seed: u64, k: u32, small: u8, most: u8) -> u8 {
    let largest = match below(seed, k, 4u16) {
        0 => small,
        1 => return most,
        _ => most,
    };
    below(seed, k, largest).wrapping_add(1)
}

// What a domain stands for, as a set. In a table that is a chain the sets lie in one another, elsewhere they are any sets of
// the things that the table is about.
fn stands_for(seed: u64, i: u8) -> u16 {
    let set: u16 = any(seed, i as u32);
    if seldom(seed, 100, 4) {
        return (1u16 << set % 16).wrapping_sub(1);
    }
    set & any::<u16>(seed, 101) & any::<u16>(seed, 102)
}

// A domain flows to each that stands for the same and more, so the relation is transitive.
fn row(seed: u64, domains: u8, i: u8) -> u16 {
    let mine = stands_for(seed, i);
    let mut row = 0;
    for j in (0..domains).filter(|j| mine & stands_for(seed, *j) == mine) {
        row |= 1u16 << j % 16;
    }
    row
}

fn rows(seed: u64, domains: u8) -> [u16; 16] {
    let mut rows = [0; 16];
    for (i, place) in (0..domains).zip(&mut rows) {
        *place = row(seed, domains, i);
    }
    rows
}

// The longest period of a table.
fn longest(seed: u64) -> u16 {
    match below(seed, 1, 8u16) {
        0 => 2,
        1 | 2 => 8,
        3 | 4 => 30,
        5 => 100,
        6 => 1000,
        _ => 60000,
    }
}

// In a light table all periods are long, so that it is often admitted.
fn period(seed: u64, own: u64, light: bool) -> u16 {
    let most = longest(seed);
    let least = if light { most / 2 + 1 } else { 1 };
    if seldom(own, 2, 4) {
        return most;
    }
    between(own, 3, least, most)
}

// Mostly at most a fifth or a sixtieth of the period; seldom all of it.
fn budget(seed: u64, own: u64, period: u16, light: bool) -> u16 {
    let kind = if light { 1 } else { below(seed, 5, 4u16) };
    let most = match kind {
        0 => period,
        1 => period / 60,
        _ => period / 5,
    };
    if seldom(own, 4, 20) {
        return period;
    }
    between(own, 6, 1, most.max(1))
}

// The least, the most or anything between.
fn some(own: u64, k: u32, least: u16, most: u16) -> u16 {
    match below(part(own, 7), k, 4u16) {
        0 => least,
        1 => most,
        _ => between(own, k, least, most),
    }
}

// No two threads alike: an odd distance between neighbours, modulo 256.
fn priority(seed: u64, i: u8) -> u8 {
    let at = i as u32;
    let place = match below(seed, 8, 5u16) {
        0 => at,
        1 => at * 37,
        2 => at * 101,
        3 => at * 171,
        _ => at * 255,
    };
    ((place % 256) as u8).wrapping_add(any(seed, 9)) ^ any::<u8>(seed, 10)
}

// Thread i, from the table's seed and its own. In version 2 one of three is released by events, and has no offset.
fn thread(seed: u64, version: u8, domains: u8, i: u8) -> Thread {
    let own = part(seed, i as u32 + 1000);
    let light = seldom(seed, 11, 4);
    let period = period(seed, own, light);
    let budget = budget(seed, own, period, light);
    let latest = period.wrapping_sub(1);
    let event = version == 2 && seldom(own, 16, 3);
    Thread {
        domain: below(own, 12, domains),
        priority: priority(seed, i),
        period,
        offset: if event { 0 } else { some(own, 13, 0, latest) },
        budget,
        deadline: some(own, 14, if light { period } else { budget }, period),
        blocking: some(own, 15, 0, budget),
        kind: if event { 1 } else { 0 },
    }
}

fn threads(seed: u64, version: u8, domains: u8, count: u8) -> [Thread; 32] {
    let mut threads = [table::no_thread(); 32];
    for (i, place) in (0..count).zip(&mut threads) {
        *place = thread(seed, version, domains, i);
    }
    threads
}

pub fn table(seed: u64) -> Table {
    let version = if seldom(seed, 5, 2) { 1 } else { 2 };
    let domains = size(seed, 1, 3, 16);
    let count = size(seed, 2, 4, 32);
    Table {
        version,
        domains,
        count,
        rows: rows(part(seed, 3), domains),
        threads: threads(part(seed, 4), version, domains, count),
    }
}
