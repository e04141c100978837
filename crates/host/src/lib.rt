// What the turbine's host is told: numbers, and a byte slice to read them from. Crate host_c exports these functions to C.
#![tactic(auto)]

ghost use Rattle.std.specs.Prelude.{◌≡◌, ◌<◌, MatchResult};
ghost use Rattle.basis.specs.Refusals.{number};
ghost use Rattle.numeral.specs.NumberRules.{Bytes};
ghost use Rattle.reader.specs.Reader.{reading};
ghost use Rattle.admission.specs.Bounded.{told as told-bound};
ghost use Rattle.host.specs.Host.{verdict, refusal, mark_number, told_number, thread_mark, thread_bound, Refuses};

use admission::{Search, bound_of};
use basis::Refusal;
use table::{Table, marks};

// The number that stands for a refusal.
fn number_of(why: Refusal) -> u32
    ensures { result ≡ number why }
{
    u32::from(u8::from(why))
}

// A refusal, apart from every mark and bound.
fn refused(why: Refusal) -> u32
    ensures { result ≡ refusal (number why) }
{
    100000 + number_of(why)
}

// The table in the bytes and the number of a thread that it has, or the refusal: the reader's, then 15.
#[tactic(auto, using(crate::proofs::HostLaws::read_refuses))]
fn thread_of(bytes: &[u8], thread: u32) -> Result<(Table, u8), Refusal>
    ensures cases { MatchResult result (λ p. (verdict bytes.now ≡ 0) × (p.0 ≡ (reading bytes.now).table) × (p.1 ≡ thread) × (thread < (reading bytes.now).table.count)) (λ why. Refuses bytes.now thread (number why)) }
    ensures bytes { Bytes bytes.now }
{
    let t = match codec::read(bytes) {
        Ok(t) => t,
        Err(fault) => return Err(fault.why),
    };
    if u32::from(t.count) <= thread {
        return Err(Refusal::Missing);
    }
    Ok((t, thread as u8))
}

// The thread that the mark protects, 255 for none; a place past the last is not marked.
fn mark_number(t: Table, i: u8) -> u32
    ensures { result ≡ mark_number t i }
{
    let marks = marks(t).unwrap_or([None; 32]);
    match marks.get(i as usize).copied().flatten() {
        Some(j) => u32::from(j),
        None => 255,
    }
}

// The bound, 0 for none, or the refusal.
#[tactic(auto, using(crate::proofs::HostLaws::refusal_told, crate::proofs::HostLaws::option_told))]
fn bound_number(b: Result<Search, Refusal>) -> u32
    ensures { result ≡ told_number (told-bound b) }
{
    match b {
        Ok(search) => u32::from(search.bound.unwrap_or(0)),
        Err(why) => refused(why),
    }
}

// The reader's verdict on the bytes: 0, or the refusal.
#[tactic(auto, using(crate::proofs::HostLaws::read_number))]
pub fn mikuzerao_verdict(bytes: &[u8]) -> u32
    ensures { (result ≡ verdict bytes.now) × Bytes bytes.now }
{
    match codec::read(bytes) {
        Ok(_) => 0,
        Err(fault) => number_of(fault.why),
    }
}

// The thread that a thread's mark protects, 255 for none; 100,000 and the number on a refusal: the reader's, then 15.
#[tactic(auto, using(crate::proofs::HostLaws::answering, crate::proofs::HostLaws::refused_only), unfolding(crate::specs::Host::thread_mark))]
pub fn mikuzerao_mark(bytes: &[u8], thread: u32) -> u32
    ensures { (result ≡ thread_mark bytes.now thread) × Bytes bytes.now }
{
    match thread_of(bytes, thread) {
        Ok((t, i)) => mark_number(t, i),
        Err(why) => refused(why),
    }
}

// A thread's bound, 0 for none; 100,000 and the number on a refusal: the reader's, then 15.
#[tactic(auto, using(crate::proofs::HostLaws::answering, crate::proofs::HostLaws::refused_only), unfolding(crate::specs::Host::thread_bound, crate::specs::Host::bound_number))]
pub fn mikuzerao_bound(bytes: &[u8], thread: u32) -> u32
    ensures { (result ≡ thread_bound bytes.now thread) × Bytes bytes.now }
{
    match thread_of(bytes, thread) {
        Ok((t, i)) => bound_number(bound_of(t, i)),
        Err(why) => refused(why),
    }
}
