// Refusals in words, for people: one sentence, ended by LF, that names the field, the thread or what is missing.
// No sentence is longer than 200 bytes. One that has no room in the lent buffer is left out.
#![tactic(auto)]

mod digits;
mod end;
mod name;
mod page;
mod range;
mod search;
mod step;

use basis::Refusal;
use name::{Spot, spot_of};
use page::put;
pub use search::{find, row_cause};
use sheet::MOST;
pub use step::{
    Named, explain_absent, explain_byte, explain_drive, explain_event, explain_frame,
    explain_other, explain_short,
};

// The bytes of a table, or its comma form.
#[derive(Clone, Copy, Debug, PartialEq, Eq)]
pub enum Form {
    Bytes,
    Sheet,
}

// What stands at a place, taken for a field of the comma form.
#[derive(Clone, Copy, Debug, PartialEq, Eq)]
pub enum Found {
    // nothing is left of the input
    Nothing,
    // the end of a field
    Empty,
    // digits up to the end of a field
    Digits,
    // this character, which is no digit, perhaps behind digits
    Strange(u8),
}

// What stands where a table is refused: the index of the number and its value, where they are known, whether the fault is the end behind
// it, what is found there, and the numbers before it.
#[derive(Clone, Copy, Debug, PartialEq, Eq)]
pub struct Cause {
    pub at: Option<usize>,
    pub value: Option<u16>,
    pub behind: bool,
    pub found: Found,
    pub numbers: [u16; MOST],
}

// A refusal of a table, in bytes or in the comma form; a number that is no refusal's is told in general words.
pub fn explain(out: &mut [u8], why: Option<Refusal>, form: Form, c: Cause) -> usize {
    match (why, c.at) {
        (Some(Refusal::Extra), _) => end::explain_rest(out, form, &c),
        (Some(Refusal::Intransitive { a, b, c }), _) => explain_gap(out, a, b, c),
        (_, Some(k)) => explain_number(out, why, form, &c, k),
        (_, None) => explain_other(out, why),
    }
}

// A refusal of number k.
fn explain_number(out: &mut [u8], why: Option<Refusal>, form: Form, c: &Cause, k: usize) -> usize {
    let s = spot_of(c, k);
    let v = c.value.unwrap_or(0);
    match (why, s) {
        // behind the sixteenth in a line of rows
        (_, Spot::Row(i)) if 15 < i => range::explain_rows(out),
        (Some(Refusal::EndsEarly), _) => end::explain_end(out, form, c, k, s),
        (Some(Refusal::NotShortest), _) => digits::explain_form(out, form, c, s),
        (Some(Refusal::TooLarge), _) => digits::explain_large(out, s),
        (Some(Refusal::Version), _) => range::explain_version(out, v),
        (Some(Refusal::Count), Spot::Head(head)) => range::explain_count(out, v, head),
        (Some(Refusal::Count), _) => range::explain_rows(out),
        (Some(Refusal::Row), Spot::Row(i)) => range::explain_row(out, c, v, i),
        (Some(Refusal::Field), Spot::Field(i, field)) => range::explain_field(
            out, c, v, k, i, field,
        ),
        (Some(Refusal::PriorityTaken), Spot::Field(i, _)) => range::explain_priority(out, c, v, i),
        _ => explain_other(out, why),
    }
}

// 7: the first a, b, c where a flows to b and b to c, and a not to c.
pub fn explain_gap(out: &mut [u8], a: u8, b: u8, c: u8) -> usize {
    put(
        out,
        format_args!(
            "domain {a} may flow to {b} and {b} to {c}, but {a} not to {c}: the pair {a} {c} is missing\n"
        ),
    )
}
