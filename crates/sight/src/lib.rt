// What a domain is shown of an answer and of a state.
#![tactic(auto)]

ghost use Rattle.std.specs.Prelude.{◌≡◌};
ghost use Rattle.sight.specs.Shown.{showing, told, given, showing_state, told_state, threads_shown};

use basis::Refusal;
use state::{Progress, State, fits};
use table::{Table, legal};
use walk::Answer;

mod views;

use views::seen_threads;

// What a domain is shown of an answer: the thread that ran, or a gap.
pub type View = Option<u8>;

// What a domain is shown of an answer; refuses with 11, 15.
#[tactic(auto, using(table::proofs::LegalLaws::legal_small), unfolding(crate::specs::Shown::showing, basis::specs::Tests::pick))]
pub fn shown(t: Table, domain: u8, answer: Answer) -> Result<View, Refusal>
    ensures { told result ≡ showing t domain answer }
{
    if !legal(t) {
        return Err(Refusal::NotLegal);
    }
    if t.domains <= domain {
        return Err(Refusal::Missing);
    }
    Ok(views::view(t, domain, answer))
}

// What a domain is shown of a state, the progress of each thread that it may see and zeros for the others; refuses with 11, 12, 15.
#[tactic(auto, using(table::proofs::LegalLaws::legal_small), unfolding(crate::specs::Shown::showing_state, crate::specs::Shown::threads_shown, basis::specs::Tests::pick))]
pub fn shown_state(t: Table, s: State, domain: u8) -> Result<[Progress; 32], Refusal>
    ensures { (told_state result ≡ showing_state t s domain) × (given result ≡ threads_shown t s domain) }
{
    if !legal(t) {
        return Err(Refusal::NotLegal);
    }
    if !fits(t, s) {
        return Err(Refusal::NotFitting);
    }
    if t.domains <= domain {
        return Err(Refusal::Missing);
    }
    Ok(seen_threads(t, domain, s))
}
