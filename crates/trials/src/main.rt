// Random tables through admission, held against the plain search of crate rival_bounds over every length. Prints how many of each
// kind there were, and last how often the two disagreed.
#![tactic(auto)]

mod busy;
mod count;

use count::{Counts, Kind};
use dice::{part, seldom};
use spoil::TableDamage;
use table::{Table, Thread};
use tally::{WRONG, line};

// Every other table is a busy one.
fn table(seed: u64) -> Table {
    let t = deal::table(seed);
    if seldom(seed, 5, 2) {
        return busy::table(part(seed, 6), t);
    }
    t
}

// Every eighth table is damaged, and few of the long ones are searched.
fn play(y: &mut Counts, seed: u64) {
    let t = table(seed);
    if seldom(seed, 1, 8) {
        let damage = TableDamage::any(seed, 2);
        count::table(y, spoil::table(part(seed, 3), t, damage));
    } else if !rival_bounds::is_long(t) || seldom(seed, 4, 24) {
        count::table(y, t);
    }
}

// Thread 0 takes the whole processor, so that thread 1's search goes through every length.
fn slowest() -> Table {
    let whole = Thread {
        domain: 0,
        priority: 1,
        period: 1,
        offset: 0,
        budget: 1,
        deadline: 1,
        blocking: 0,
        kind: 0,
    };
    let mut rows = [0; 16];
    rows[0] = 1;
    let mut threads = [table::no_thread(); 32];
    threads[0] = whole;
    threads[1] = Thread {
        priority: 0,
        period: 60000,
        deadline: 60000,
        ..whole
    };
    Table {
        version: 1,
        domains: 1,
        count: 2,
        rows,
        threads,
    }
}

fn say_worst(y: &Counts, what: &[u8]) {
    io::print_decimal(1, y.worst as u64);
    io::write_all(1, what);
}

fn report(y: &Counts) {
    line(&y.tally, Kind::Admitted, b" tables admitted\n");
    line(&y.tally, Kind::Without, b" not admitted\n");
    line(&y.tally, Kind::Refused, b" refused\n");
    line(&y.tally, Kind::Found, b" bounds found\n");
    line(&y.tally, Kind::Unbounded, b" threads without a bound\n");
    line(&y.tally, Kind::NoThread, b" threads that the table lacks\n");
    line(&y.tally, Kind::Prohibited, b" prohibition times above 0\n");
    say_worst(y, b" demands at most for one thread\n");
}

fn main() {
    let mut y = Counts {
        tally: [0; 64],
        worst: 0,
    };
    for n in 0..5200u32 {
        play(&mut y, part(2, n));
    }
    report(&y);
    count::table(&mut y, slowest());
    say_worst(&y, b" demands for the thread made to be slowest\n");
    line(&y.tally, WRONG, b" disagreements\n");
}
