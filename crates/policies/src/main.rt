// Random flow policies, some of them damaged, each mended by crate mend and by a second closing that squares. Prints how many of each kind
// there were, and last how often the two disagreed.
#![tactic(auto)]

ghost use Rattle.std.specs.Prelude.{◌≤◌};

mod kind;

use dice::{any, below, part, seldom};
use kind::Kind;
use mend::{Mended, Unmendable};
use rival_mend::only;
use tally::{Tally, WRONG, count, line};

// Few policies have no row, or too many.
fn domains(seed: u64) -> u8
    ensures { result ≤ 18 }
{
    match below(seed, 1, 40u16) {
        0 => 0,
        1 => 17,
        2 => 18,
        _ => 1 + below(seed, 2, 16) % 16,
    }
}

// Its own domain, and of the others one in so many.
fn row(seed: u64, domains: u8, i: u8, one_in: u16) -> u16 {
    let mut set = only(i);
    for j in 0..domains.min(16) {
        if seldom(seed, j as u32, one_in) {
            set |= only(j);
        }
    }
    set
}

// One in eight policies has a row with a bit turned over.
fn harmed(seed: u64, rows: [u16; 18]) -> [u16; 18] {
    let mut h = rows;
    if seldom(seed, 3, 8) {
        h[below(seed, 4, 16u8) as usize % 16] ^= only(below(seed, 5, 16));
    }
    h
}

fn rows(seed: u64, domains: u8) -> [u16; 18] {
    let one_in = 2 + below(seed, 6, 30) % 30;
    let mut rows = [0; 18];
    for (i, place) in (0..18).zip(&mut rows) {
        *place = row(part(seed, i as u32), domains, i, one_in);
    }
    harmed(part(seed, 20), rows)
}

// A list of 240 places is long enough; one in four has fewer than 64.
fn room(seed: u64) -> u8 {
    if seldom(seed, 7, 4) {
        below(seed, 8, 64)
    } else {
        240
    }
}

fn count_kinds(tally: &mut Tally, mended: Result<Mended, Unmendable>) {
    match mended {
        Ok(m) => {
            count(tally, Kind::Mended);
            if m.added == 0 {
                count(tally, Kind::Whole);
            }
            if 100 <= m.added {
                count(tally, Kind::Long);
            }
        }
        Err(why) => count(tally, Kind::Refused(why)),
    }
}

// The two agree where they answer the same, and leave the same in lists that held the same.
fn play(tally: &mut Tally, seed: u64) {
    let domains = domains(seed);
    let rows = rows(seed, domains);
    let given = &rows[..domains as usize];
    let held = any(seed, 9);
    let places = room(seed) as usize;
    let mut first_pairs = [held; 256];
    let mut second_pairs = [held; 256];
    let first = mend::mend(given, &mut first_pairs[..places]);
    let second = rival_mend::mend(given, &mut second_pairs[..places]);
    if first == second && first_pairs == second_pairs {
        count_kinds(tally, first);
    } else {
        count(tally, WRONG);
    }
}

fn report(tally: &Tally) {
    line(
        tally,
        Kind::Mended,
        b" policies mended, as a second closing does\n",
    );
    line(tally, Kind::Whole, b" of them transitive before\n");
    line(
        tally,
        Kind::Long,
        b" of them with 100 pairs or more added\n",
    );
    line(
        tally,
        Kind::Refused(Unmendable::BadCount),
        b" refused with 5\n",
    );
    line(
        tally,
        Kind::Refused(Unmendable::BadRow(0)),
        b" refused with 6\n",
    );
    line(
        tally,
        Kind::Refused(Unmendable::NoRoom),
        b" refused with 16\n",
    );
    line(tally, WRONG, b" disagreements\n");
}

fn main() {
    let mut tally = [0; 64];
    for k in 0..10000 {
        play(&mut tally, part(7, k));
    }
    report(&tally);
}
