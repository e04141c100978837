// The texts of random tables, legal and damaged, read and written by the proved reader and writer of the comma form and by crate
// rival_sheet. Prints how often each number came up, and last how often the two sides disagreed.
#![tactic(auto)]

mod damage;

use bout_bytes::Kind;
use damage::TextDamage;
use dice::{part, seldom};
use spoil::TableDamage;
use table::Table;
use tally::{Tally, WRONG, count_agreed, line};

// The text of a table, of which something may be wrong, and its text's damage.
fn read_one(tally: &mut Tally, seed: u64, t: Table, damage: TextDamage) {
    let sheet = damage::text(seed, rival_sheet::write(t), damage);
    let text = sheet.text();
    count_agreed(
        tally,
        bout_bytes::read(sheet::read(text), rival_sheet::read(text)),
    );
}

fn write_one(tally: &mut Tally, seed: u64, t: Table) {
    let text = rival_sheet::write(t);
    count_agreed(tally, bout_bytes::write(seed, t, text, sheet::write));
}

fn play_table(tally: &mut Tally, seed: u64) {
    let t = deal::table(seed);
    write_one(tally, part(seed, 1), t);
    for (k, damage) in (10..).zip(TextDamage::ALL) {
        let own = part(seed, k);
        let bad = spoil::table(own, t, TableDamage::any(own, 4));
        read_one(tally, own, t, damage);
        if seldom(own, 5, 2) {
            read_one(tally, own, bad, TextDamage::Nothing);
        } else {
            read_one(tally, own, bad, damage);
            write_one(tally, own, bad);
        }
    }
}

// A refused reading is counted at its number.
fn report_reads(tally: &Tally) {
    line(tally, Kind::Read, b" texts read\n");
    for why in 1..11u32 {
        line(tally, why, b" refused with ");
        io::print_decimal(1, why as u64);
        io::write_all(1, b"\n");
    }
}

fn report(tally: &Tally) {
    line(tally, Kind::Written, b" texts written\n");
    line(tally, Kind::NotLegal, b" refused with 11\n");
    line(tally, Kind::NoRoom, b" refused with 16\n");
    line(tally, WRONG, b" disagreements\n");
}

fn main() {
    let mut tally = [0u32; 64];
    for k in 0..1000u32 {
        play_table(&mut tally, part(11, k));
    }
    report_reads(&tally);
    report(&tally);
}
