// What a domain is shown.
use crate::fit::fits;
use crate::start::NOTHING;
use basis::Refusal;
use rival_table::{flows, legal, unless};
use scheduler::{Answer, Progress, State};
use table::{Table, Thread};

// Whether the domain of a thread of the table may flow to this one.
fn is_seen(t: Table, domain: u8, f: Thread) -> bool {
    flows(t.rows, f.domain, domain)
}

// A thread that ran, to those who may know; else a gap. Refuses with 11, 15.
pub fn shown(t: Table, domain: u8, answer: Answer) -> Result<Option<u8>, Refusal> {
    unless(legal(t), Refusal::NotLegal)?;
    unless(domain < t.domains, Refusal::Missing)?;
    Ok(match answer {
        Answer::Ran(i) if i < t.count && is_seen(t, domain, t.threads[i as usize % 32]) => Some(i),
        _ => None,
    })
}

// Both rests, mark and count of each thread that the domain may see, and nothing else; zeros for the others. Refuses with 11, 12, 15.
pub fn shown_state(t: Table, s: State, domain: u8) -> Result<[Progress; 32], Refusal> {
    unless(legal(t), Refusal::NotLegal)?;
    unless(fits(t, s), Refusal::NotFitting)?;
    unless(domain < t.domains, Refusal::Missing)?;
    let mut threads = [NOTHING; 32];
    for (i, f) in (0..t.count).zip(t.threads) {
        let place = i as usize % 32;
        if is_seen(t, domain, f) {
            threads[place] = Progress {
                since: 0,
                ..s.threads[place]
            };
        }
    }
    Ok(threads)
}
