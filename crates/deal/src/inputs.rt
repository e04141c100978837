// Random step bytes, and random masks of events.
use dice::{any, below, part, seldom};
use table::Table;

// In a mood of 0 few threads run, in one of 7 nearly all.
fn byte(seed: u64, mood: u16) -> u8 {
    if below(seed, 11, 8u16) < mood {
        return 1;
    }
    match below(seed, 12, 10u16) {
        0 => 1,
        1 => 2,
        2 => 3,
        3 => 255,
        4 => any(seed, 13),
        _ => 0,
    }
}

// A mood is drawn by number k.
fn some_bytes<const N: usize>(seed: u64, k: u32) -> [u8; N] {
    let mood = below(seed, k, 8);
    let mut bytes = [0; N];
    for (i, b) in (0..).zip(&mut bytes) {
        *b = byte(part(seed, i), mood);
    }
    bytes
}

// More bytes than any table asks for.
pub fn bytes(seed: u64) -> [u8; 40] {
    some_bytes(seed, 14)
}

// The bytes of a block: as many as eight steps of any table ask for, and more.
pub fn block_bytes(seed: u64) -> [u8; 300] {
    some_bytes(seed, 15)
}

// In a mood of 0 there is no event, in one of 7 nearly every event thread has one.
fn events(seed: u64, t: Table) -> u32 {
    let mood = below(seed, 18, 8u16);
    let mut mask = 0;
    for (i, f) in (0..t.count as u32).zip(t.threads) {
        if f.kind == 1 && below(part(seed, i), 19, 8) < mood {
            mask |= 1u32 << i % 32;
        }
    }
    mask
}

// Mostly events of event threads only; seldom one bit turned, which may be any thread's, or any mask.
pub fn mask(seed: u64, t: Table) -> u32 {
    let mask = events(seed, t);
    match below(seed, 20, 24u16) {
        0 => mask ^ 1u32 << below(seed, 21, 32u8) % 32,
        1 => any(seed, 22),
        _ => mask,
    }
}

// The masks of a block: mostly events of event threads only in all of them.
pub fn block_masks(seed: u64, t: Table) -> [u32; 8] {
    let good = !seldom(seed, 16, 8);
    let mut masks = [0; 8];
    for (k, place) in (0..).zip(&mut masks) {
        let own = part(seed, k);
        *place = if good { events(own, t) } else { mask(own, t) };
    }
    masks
}
