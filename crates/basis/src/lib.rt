// What every crate above shares: why a call is refused, and the quotient rounded up. The tests and searches of specs/ have no code.
#![tactic(auto)]

ghost use Rattle.std.specs.Prelude.{◌≡◌};
ghost use Rattle.basis.specs.Ceil.{ceil};

mod refusal;

pub use refusal::Refusal;

// a / b rounded up: the quotient, and one more when a remainder is left; 0 where b is 0.
#[tactic(auto, unfolding(crate::specs::Ceil::ceil, crate::specs::Tests::pick))]
pub fn rounded_up(a: u32, b: u32) -> u64
    ensures { result ≡ ceil a b }
{
    if b == 0 {
        return 0;
    }
    let quotient = (a / b) as u64;
    if a % b == 0 {
        return quotient;
    }
    quotient + 1
}
