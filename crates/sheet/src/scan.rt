// Cutting a text into numbers: after a fault nothing more is cut.
ghost use Rattle.std.specs.Prelude.{◌≡◌, ℕ, ◌+◌, ◌*◌, ◌≤◌, ◌<◌, true, false, length, eqb};
ghost use Rattle.basis.specs.Tests.{pick};
ghost use Rattle.table.specs.Threads.{fields_in as the-fields-in};
ghost use Rattle.codec.specs.Judging.{wanted};
ghost use Rattle.sheet.specs.Text.{line_over};
ghost use Rattle.sheet.specs.Sheet.{end_fault, behind as the-place-behind};
ghost use Rattle.sheet.specs.Scan.{stop_why, stop_place, stop_ended, cut_of, told_cut, number_cut, goes_on as to-go-on, turned, scanned};

use super::field::read_field;
use super::{Cutting, MOST, Stop};
use basis::Refusal;
use numeral::Numeral;
use reader::Fault;
use table::fields_in;

// How many fields a thread has in a version; 255 is no version either, and stands for those above.
fn width(version: u16) -> usize
    ensures { (result ≡ the-fields-in version) × (result ≤ 8) × (1 ≤ result) }
{
    fields_in(version.min(255) as u8) as usize
}

// How many numbers follow the first three.
fn due(version: u16, domains: u16, threads: u16) -> usize
    ensures { result ≡ domains + the-fields-in version * threads }
{
    domains as usize + width(version) * threads as usize
}

// Whether another number is wanted behind these.
#[tactic(auto, unfolding(codec::specs::Judging::wanted))]
fn is_wanted(numbers: &[u16]) -> bool
    ensures { result ≡ wanted numbers.now }
{
    match numbers {
        [version, domains, threads, rest @ ..] => rest.len() < due(*version, *domains, *threads),
        _ => true,
    }
}

// Whether a line ends behind these numbers.
#[tactic(auto, unfolding(crate::specs::Text::line_over))]
fn is_line_over(numbers: &[u16]) -> bool
    ensures { result ≡ line_over numbers.now }
{
    match numbers {
        [_, _, _] => true,
        [version, domains, _, rest @ ..] => {
            let d = *domains as usize;
            d <= rest.len() && (rest.len() - d) % width(*version) == 0
        }
        _ => false,
    }
}

// What stops the cutting at the end of a field, if that end is not as due.
#[tactic(auto, unfolding(crate::specs::Sheet::end_fault, basis::specs::Tests::pick))]
fn end_stop(s: &[u8], at: usize, last: bool) -> Option<Stop>
    requires { at < length s.now }
    ensures why { stop_why result ≡ end_fault s.now at last }
    ensures place { (next : ℕ) → stop_place next result ≡ pick (eqb (end_fault s.now at last) 0) 0 at }
    ensures ended { stop_ended result ≡ pick (eqb (end_fault s.now at last) 0) false true }
{
    let why = match (s[at] == b',', last) {
        (true, true) => Refusal::Extra,
        (false, false) => Refusal::EndsEarly,
        _ => return None,
    };
    Some(Stop::WrongEnd(Fault { why, place: at }))
}

// The place behind the end of a field.
#[tactic(auto, unfolding(crate::specs::Text::ending, basis::specs::Tests::pick))]
fn behind(at: usize, last: bool) -> usize
    requires { at < 9223372036854775807 }
    ensures { result ≡ the-place-behind at last }
{
    if last {
        return at + 2;
    }
    at + 1
}

// A number more, with its end.
fn cut_number(s: &[u8], c: Cutting, v: u16, end: usize) -> Cutting
    requires { (c.count < 275) × (end < length s.now) }
    ensures { cut_of result ≡ told_cut (number_cut s.now (cut_of c) v end) }
{
    let mut numbers = c.numbers;
    numbers[c.count] = v;
    let count = c.count + 1;
    let last = is_line_over(&numbers[..count]);
    Cutting {
        stop: end_stop(s, end, last),
        next: behind(end, last),
        count,
        numbers,
    }
}

// Whether one field more is wanted.
#[tactic(auto, unfolding(crate::specs::Scan::goes_on))]
fn goes_on(c: Cutting) -> bool
    ensures { result ≡ to-go-on (cut_of c) }
{
    c.stop.is_none() && c.count < MOST && is_wanted(&c.numbers[..c.count])
}

// One field more.
fn turn(s: &[u8], c: Cutting) -> Cutting
    ensures { cut_of result ≡ told_cut (turned s.now (cut_of c)) }
{
    if !goes_on(c) {
        return c;
    }
    match read_field(s, c.next) {
        Ok(Numeral { value, next }) => cut_number(s, c, value, next),
        Err(why) => Cutting {
            stop: Some(Stop::NoNumber(why)),
            ..c
        },
    }
}

// The text cut into its first n fields at most.
pub fn scan(s: &[u8], n: usize) -> Cutting
    ensures { cut_of result ≡ told_cut (scanned s.now n) }
{
    let mut c = Cutting {
        stop: None,
        next: 0,
        count: 0,
        numbers: [0u16; MOST],
    };
    for _ in 0..n {
        c = turn(s, c);
    }
    c
}
