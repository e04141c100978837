// The bytes of random tables, legal and damaged, read and written by the proved reader and writer, by the host's three calls, and
// by crate rival_bytes. Prints how often each number came up, and last how often the two sides disagreed.
#![tactic(auto)]

use bout_bytes::Kind;
use dice::{any, below, part, seldom};
use spoil::{ByteDamage, TableDamage};
use table::Table;
use tally::{Tally, WRONG, count_agreed, line};

// Mostly a thread of the table; seldom one that it lacks, also such as would be one in 8 bits.
fn some_thread(seed: u64, t: Table) -> u32 {
    let i = below(seed, 1, t.count as u32 + 2);
    match below(seed, 2, 16u16) {
        0 => i.wrapping_add(256),
        1 => any(seed, 3),
        _ => i,
    }
}

// The bytes of a table, of which something may be wrong, and its bytes' damage.
fn read_one(tally: &mut Tally, seed: u64, t: Table, damage: ByteDamage) {
    let page = spoil::bytes(seed, rival_bytes::write(t), damage);
    let answers = bout_bytes::calls(page.text(), some_thread(seed, t));
    count_agreed(tally, answers.read);
    count_agreed(tally, answers.mark);
    count_agreed(tally, answers.bound);
}

fn write_one(tally: &mut Tally, seed: u64, t: Table) {
    let page = rival_bytes::write(t);
    count_agreed(tally, bout_bytes::write(seed, t, page, codec::write));
}

fn play_table(tally: &mut Tally, seed: u64) {
    let t = deal::table(seed);
    write_one(tally, part(seed, 1), t);
    for (k, damage) in (10..).zip(ByteDamage::ALL) {
        let own = part(seed, k);
        let bad = spoil::table(own, t, TableDamage::any(own, 4));
        read_one(tally, own, t, damage);
        if seldom(own, 5, 2) {
            read_one(tally, own, bad, ByteDamage::Nothing);
        } else {
            write_one(tally, own, bad);
        }
    }
}

// A refused reading is counted at its number.
fn report_reads(tally: &Tally) {
    line(tally, Kind::Read, b" tables read\n");
    for why in 1..11u32 {
        line(tally, why, b" refused with ");
        io::print_decimal(1, why as u64);
        io::write_all(1, b"\n");
    }
}

fn report(tally: &Tally) {
    line(tally, Kind::Written, b" tables written\n");
    line(tally, Kind::NotLegal, b" refused with 11\n");
    line(tally, Kind::NoRoom, b" refused with 16\n");
    line(tally, Kind::Unmarked, b" threads not marked for the host\n");
    line(tally, Kind::Marked, b" threads marked\n");
    line(tally, Kind::Bound, b" bounds\n");
    line(tally, Kind::NoBound, b" threads without a bound\n");
    line(tally, Kind::NoThread, b" threads that the table lacks\n");
    line(tally, Kind::NotRead, b" refused with the reader's number\n");
    line(tally, WRONG, b" disagreements\n");
}

fn main() {
    let mut tally = [0u32; 64];
    for k in 0..3000u32 {
        play_table(&mut tally, part(3, k));
    }
    report_reads(&tally);
    report(&tally);
}
