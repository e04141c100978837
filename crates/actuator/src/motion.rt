// The actuator by itself: its range, the command that stands, and one move.
ghost use Rattle.std.specs.Prelude.{◌≡◌, true};
ghost use Rattle.actuator.specs.Motion.{in_range, ranged, drawn, moved as the-moved};
ghost use Rattle.actuator.specs.Drive.{commanded, moved_to};

use super::Actuator;
use scheduler::Answer;

// The ends of the range of positions and commands.
const LOWEST: i32 = -5000;

const HIGHEST: i32 = 95000;

// Whether a position or a command is from -5,000 to 95,000.
#[tactic(auto, using(std::proofs::lemmas::Int::ints), unfolding(crate::specs::Motion::in_range))]
fn is_in_range(z: i32) -> bool
    ensures { result ≡ in_range z }
{
    LOWEST <= z && z <= HIGHEST
}

// Whether rate, position and stored command are in their ranges.
#[tactic(auto, using(std::proofs::lemmas::Int::ints), unfolding(crate::specs::Motion::ranged))]
pub fn is_ranged(a: Actuator) -> bool
    ensures { result ≡ ranged a }
{
    1 <= a.rate && a.rate <= 1000 && is_in_range(a.position) && is_in_range(a.command)
}

// A number drawn into the range.
#[tactic(auto, using(std::proofs::lemmas::Int::ints, std::proofs::lemmas::Int::clamps), unfolding(crate::specs::Motion::drawn, basis::specs::Tests::pick))]
fn draw(x: i64) -> i32
    ensures { result ≡ drawn x }
{
    x.clamp(LOWEST as i64, HIGHEST as i64) as i32
}

// The command that stands after an answer: the new one only if the pitch thread ran.
#[tactic(auto, using(std::proofs::lemmas::Int::ints), unfolding(crate::specs::Drive::ran, crate::specs::Drive::commanded, basis::specs::Tests::pick))]
pub fn stand(a: Actuator, answer: Answer, command: i64) -> i32
    ensures { result ≡ commanded a answer command }
{
    if answer == Answer::Ran(a.thread) {
        return draw(command);
    }
    a.command
}

// A position moved towards a command by the smaller of the rate and the distance.
#[tactic(auto, using(std::proofs::lemmas::Int::ints), unfolding(crate::specs::Motion::moved, crate::specs::Motion::towards, crate::specs::Motion::way, crate::specs::Motion::distance, crate::specs::Motion::in_range, basis::specs::Tests::pick))]
fn moved(rate: u32, p: i32, c: i32) -> i32
    requires { (in_range p ≡ true) × (in_range c ≡ true) }
    ensures { result ≡ the-moved rate p c }
{
    let way = rate.min(p.abs_diff(c)) as i32;
    if p < c {
        return p + way;
    }
    p - way
}

// The actuator after a step at whose end this command stands.
#[tactic(auto, using(std::proofs::lemmas::Int::ints), unfolding(crate::specs::Motion::ranged, crate::specs::Motion::in_range, crate::specs::Drive::moved_to))]
pub fn move_to(a: Actuator, command: i32) -> Actuator
    requires { (ranged a ≡ true) × (in_range command ≡ true) }
    ensures { result ≡ moved_to a command }
{
    Actuator {
        position: moved(a.rate, a.position, command),
        command,
        ..a
    }
}
