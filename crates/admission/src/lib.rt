// Admission: the bound of each thread by time-demand analysis, and beside it the prohibition time, and the most idle steps on a thread's account.
#![tactic(auto)]

ghost use Rattle.std.specs.Prelude.{◌≡◌, ◌<◌, ltb, [], OnOk};
ghost use Rattle.basis.specs.Tests.{pick};
ghost use Rattle.basis.specs.Told.{answered, refused};
ghost use Rattle.basis.specs.Refusals.{told_number, told_done};
ghost use Rattle.table.specs.Legal.{legal as is_legal, Legal};
ghost use Rattle.admission.specs.Bounded.{told, count_in, bounding};
ghost use Rattle.admission.specs.Tried.{count_given};
ghost use Rattle.admission.specs.Admit.{told as told-admitting, bounds_in, counts_in, admitting, bounds_given, counts_given};
ghost use Rattle.admission.specs.Worst.{worst_given};
ghost use Rattle.admission.specs.Prohibition.{prohibiting};
ghost use Rattle.admission.specs.IdleMost.{idling};

use basis::Refusal;
use table::{Table, legal};

mod bounds;
mod demand;
mod idle;
mod prohibited;
mod worst;

use bounds::{admit_legal, find_bound};
use idle::idle_within;
use prohibited::prohibition_time;
use worst::worst_of;

// A search for a thread's bound: the bound, if there is one up to the deadline, and the number of lengths whose demand it worked out.
#[derive(Clone, Copy, Debug, PartialEq, Eq)]
pub struct Search {
    pub bound: Option<u16>,
    pub tried: u16,
}

// The first thread in table order that has no bound, if there is one. The bounds are zero where there is, and past the last thread.
// `tried` has, of each thread searched, the number of lengths whose demand was worked out: of all threads, or up to and with the first
// that has no bound; 0 for the others.
#[derive(Clone, Copy, Debug, PartialEq, Eq)]
pub struct Admission {
    pub without: Option<u8>,
    pub bounds: [u16; 32],
    pub tried: [u16; 32],
}

// Whether a table is legal; refuses with 11.
#[tactic(auto, using(table::proofs::LegalLaws::legal_sound, basis::proofs::ListLaws::long_of), unfolding(basis::specs::Tests::pick))]
fn lawful(t: Table) -> Result<(), Refusal>
    ensures told { told_done result ≡ pick (is_legal t) (answered []) (refused 11) }
    ensures ok { OnOk result (Legal t) }
{
    if !legal(t) {
        return Err(Refusal::NotLegal);
    }
    Ok(())
}

// Whether a table is legal and has thread i; refuses with 11, 15.
#[tactic(auto, using(crate::proofs::AskedLaws::lawful, crate::proofs::AskedLaws::not_lawful), unfolding(basis::specs::Tests::pick))]
fn has_thread(t: Table, i: u8) -> Result<(), Refusal>
    ensures told { told_done result ≡ pick (is_legal t) (pick (ltb i t.count) (answered []) (refused 15)) (refused 11) }
    ensures ok { OnOk result (Legal t × (i < t.count)) }
{
    lawful(t)?;
    if t.count <= i {
        return Err(Refusal::Missing);
    }
    Ok(())
}

// All bounds, or the first thread that has none; refuses with 11.
#[tactic(auto, using(crate::proofs::AskedLaws::lawful, crate::proofs::AskedLaws::not_lawful, crate::proofs::AskedLaws::told_alike), unfolding(crate::specs::Admit::admitting, crate::specs::Admit::bounds_given, crate::specs::Admit::counts_given, basis::specs::Tests::pick))]
pub fn admit(t: Table) -> Result<Admission, Refusal>
    ensures { (told-admitting result ≡ admitting t) × (bounds_in result ≡ bounds_given t) × (counts_in result ≡ counts_given t) }
{
    lawful(t)?;
    Ok(admit_legal(t))
}

// The bound of thread i, or none; refuses with 11, 15.
#[tactic(auto, using(crate::proofs::AskedLaws::asked, crate::proofs::AskedLaws::refused_as, crate::proofs::AskedLaws::told_alike), unfolding(crate::specs::Bounded::bounding, crate::specs::Tried::count_given, basis::specs::Tests::pick))]
pub fn bound_of(t: Table, i: u8) -> Result<Search, Refusal>
    ensures { (told result ≡ bounding t i) × (count_in result ≡ count_given t i) }
{
    has_thread(t, i)?;
    Ok(find_bound(t, i))
}

// The worst count of a table, with no search: D - W + 1 lengths for each thread; refuses with 11.
#[tactic(auto, using(crate::proofs::AskedLaws::lawful, crate::proofs::AskedLaws::not_lawful), unfolding(crate::specs::Worst::worst_given, basis::specs::Tests::pick))]
pub fn worst_count(t: Table) -> Result<u32, Refusal>
    ensures { told_number result ≡ worst_given t }
{
    lawful(t)?;
    Ok(worst_of(t))
}

// The prohibition time of thread l; refuses with 11, 15.
#[tactic(auto, using(crate::proofs::AskedLaws::asked, crate::proofs::AskedLaws::refused_as), unfolding(crate::specs::Prohibition::prohibiting, basis::specs::Tests::pick))]
pub fn prohibition(t: Table, l: u8) -> Result<u64, Refusal>
    ensures { told_number result ≡ prohibiting t l }
{
    has_thread(t, l)?;
    Ok(prohibition_time(t, l))
}

// The most steps, in any `length` steps in a row from a fresh start, that the processor idles on thread h's account; refuses with 11, 15.
#[tactic(auto, using(crate::proofs::AskedLaws::asked, crate::proofs::AskedLaws::refused_as), unfolding(crate::specs::IdleMost::idling, basis::specs::Tests::pick))]
pub fn idle_most(t: Table, h: u8, length: u32) -> Result<u64, Refusal>
    ensures { told_number result ≡ idling t h length }
{
    has_thread(t, h)?;
    Ok(idle_within(t, h, length))
}
