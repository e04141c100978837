// Tables that nearly fill the processor, so that a search takes many turns.
use dice::{between, part};
use table::{Table, Thread};

// A thread's share where so many share half of the processor alike: at least a step, so that short periods fill the other half.
fn share(period: u16, count: u8) -> u16 {
    period.checked_div(count as u16 * 2).unwrap_or(1).max(1)
}

// The thread with any period up to 1,000 in which to use its share.
fn thread(own: u64, f: Thread, count: u8) -> Thread {
    let period = between(own, 0, 1, 1000);
    let budget = share(period, count);
    Thread {
        period,
        offset: 0,
        budget,
        deadline: period,
        blocking: between(own, 1, 0, budget),
        ..f
    }
}

pub fn table(seed: u64, t: Table) -> Table {
    let mut u = t;
    for (i, f) in (0..t.count).zip(t.threads) {
        u.threads[i as usize % 32] = thread(part(seed, i as u32), f, t.count);
    }
    u
}
