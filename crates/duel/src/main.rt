// Plays random tables, states and frames, legal and damaged, with both schedulers, the proved one and crate rival. Prints how many of
// each kind were played, and last how often the two disagreed.
#![tactic(auto)]

mod report;

use dice::{part, seldom};
use report::Dealt;
use scheduler::{Frame, State};
use spoil::{StateDamage, TableDamage};
use table::Table;
use tally::{Tally, WRONG, count, count_agreed};

// What becomes of the events of a step that is made.
fn events(tally: &mut Tally, t: Table, s: State, mask: u32) {
    for i in 0..32u8 {
        let place = i as usize;
        if let Some(kind) = bout::event(t.threads[place], s.threads[place], mask, i) {
            count(tally, kind);
        }
    }
}

// One step of a run; the state after it. Events are counted in a step without a frame.
fn turn(
    tally: &mut Tally,
    t: Table,
    frame: Option<Frame>,
    s: State,
    mask: u32,
    bytes: &[u8],
) -> State {
    let r = bout::step(t, frame, s, mask, bytes, t.count);
    count_agreed(tally, r.kind);
    if frame.is_none() && r.kind.is_some_and(|kind| kind.is_step()) {
        events(tally, t, s, mask);
    }
    r.state
}

// A run of some steps, and one in a frame with the same events and bytes.
fn run(tally: &mut Tally, seed: u64, t: Table, f: Frame, from: State, steps: u32) {
    let mut s = from;
    let mut framed = from;
    for k in 0..steps {
        let own = part(seed, k);
        let bytes = deal::bytes(own);
        let mask = deal::mask(own, t);
        s = turn(tally, t, None, s, mask, &bytes);
        framed = turn(tally, t, Some(f), framed, mask, &bytes);
    }
}

// A block of some steps, in the frame or without it; the state after it.
fn block_turn(tally: &mut Tally, seed: u64, t: Table, f: Frame, s: State) -> State {
    let bytes = deal::block_bytes(seed);
    let masks = deal::block_masks(seed, t);
    let r = bout::steps_in_block(seed, t, f, s, &masks, &bytes);
    count_agreed(tally, r.kind);
    r.state
}

// Blocks one after the other.
fn blocks(tally: &mut Tally, seed: u64, t: Table, f: Frame, from: State) {
    let mut s = from;
    for k in 0..4u32 {
        s = block_turn(tally, part(seed, k), t, f, s);
    }
}

// One step of a table and a state that may both be damaged, with the right number of bytes or a wrong one, and one in a frame that may
// be damaged too; a block of steps; what a domain is shown of it; and the table's fresh state.
fn try_out(tally: &mut Tally, seed: u64, t: Table, s: State) {
    let bytes = deal::bytes(seed);
    let mask = deal::mask(seed, t);
    let n = bout::some_length(seed, t.count);
    let f = deal::any_frame(part(seed, 3), t);
    let framed = bout::step(t, Some(f), s, mask, &bytes, n);
    count_agreed(tally, framed.kind);
    let r = bout::step(t, None, s, mask, &bytes, n);
    count_agreed(tally, r.kind);
    block_turn(tally, part(seed, 4), t, f, s);
    count_agreed(tally, bout::fresh(t));
    count_agreed(tally, bout::marks(t));
    count_agreed(tally, bout::shown(part(seed, 1), t));
    count_agreed(tally, bout::shown_state(part(seed, 2), t, r.state));
}

// A table with each kind of damage, and a state that fits the table as it was.
fn damaged_tables(tally: &mut Tally, seed: u64, t: Table) {
    for (k, damage) in (0..).zip(TableDamage::ALL) {
        let own = part(seed, k);
        let u = spoil::table(own, t, damage);
        let mut s = deal::state(own, t);
        if seldom(own, 50, 4) {
            s.clock = 1000000000;
        }
        count(tally, Dealt::Table(damage));
        try_out(tally, own, u, s);
    }
}

// A state with each kind of damage.
fn damaged_states(tally: &mut Tally, seed: u64, t: Table) {
    for (k, damage) in (0..).zip(StateDamage::ALL) {
        let own = part(seed, k);
        let s = spoil::state(own, t, deal::state(own, t), damage);
        count(tally, Dealt::State(damage));
        try_out(tally, own, t, s);
    }
}

fn play_table(tally: &mut Tally, seed: u64) {
    let t = deal::table(seed);
    let Ok(start) = scheduler::fresh(t) else {
        count(tally, WRONG);
        return;
    };
    let f = deal::frame(part(seed, 12), t);
    count(tally, Dealt::Legal);
    run(tally, part(seed, 1), t, f, start, 18);
    blocks(tally, part(seed, 13), t, f, start);
    for k in 2..6u32 {
        let own = part(seed, k);
        let s = deal::state(own, t);
        run(tally, own, t, deal::frame(part(own, 2), t), s, 1);
        try_out(tally, part(own, 1), t, s);
    }
    damaged_tables(tally, part(seed, 10), t);
    damaged_states(tally, part(seed, 11), t);
}

fn main() {
    let mut tally = [0u32; 64];
    for k in 0..2000u32 {
        play_table(&mut tally, part(1, k));
    }
    report::report(&tally);
}
