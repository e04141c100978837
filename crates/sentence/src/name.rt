// What a number of a table is, by its index, and its name.
ghost use Rattle.std.specs.Prelude.{Some};
ghost use Rattle.sentence.specs.Names.{head_name, field_name, spot_name, subject_name};

use super::Cause;
use std::fmt;
use std::fmt::{Display, Formatter, Write};

// The first three numbers.
#[derive(Clone, Copy, Debug, PartialEq, Eq)]
pub enum Head {
    Version,
    Domains,
    Threads,
}

// A thread's fields, in their order.
#[derive(Clone, Copy, Debug, PartialEq, Eq)]
pub enum Field {
    Domain,
    Priority,
    Period,
    Offset,
    Budget,
    Deadline,
    Blocking,
    Kind,
}

// One of the first three numbers, a domain's row or a thread's field.
#[derive(Clone, Copy, Debug, PartialEq, Eq)]
pub enum Spot {
    Head(Head),
    Row(usize),
    Field(usize, Field),
}

// A spot as a sentence starts with it.
#[derive(Clone, Copy, Debug, PartialEq, Eq)]
pub struct Subject(pub Spot);

impl Display for Head {
    ghost output = { λ s. Some (head_name s) };

    fn fmt<W: Write>(&self, f: &mut Formatter<W>) -> fmt::Result {
        f.write_str(match self {
            Head::Version => "the version",
            Head::Domains => "the number of domains",
            Head::Threads => "the number of threads",
        })
    }
}

impl Display for Field {
    ghost output = { λ s. Some (field_name s) };

    fn fmt<W: Write>(&self, f: &mut Formatter<W>) -> fmt::Result {
        f.write_str(match self {
            Field::Domain => "domain",
            Field::Priority => "priority",
            Field::Period => "period",
            Field::Offset => "offset",
            Field::Budget => "budget",
            Field::Deadline => "deadline",
            Field::Blocking => "blocking share",
            Field::Kind => "kind",
        })
    }
}

// As a spot stands in the middle of a sentence.
impl Display for Spot {
    ghost output = { λ s. Some (spot_name s) };

    fn fmt<W: Write>(&self, f: &mut Formatter<W>) -> fmt::Result {
        match self {
            Spot::Head(head) => write!(f, "{head}"),
            Spot::Row(domain) => write!(f, "the row of domain {domain}"),
            Spot::Field(thread, field) => write!(f, "thread {thread}'s {field}"),
        }
    }
}

impl Display for Subject {
    ghost output = { λ s. Some (subject_name s) };

    fn fmt<W: Write>(&self, f: &mut Formatter<W>) -> fmt::Result {
        match self.0 {
            Spot::Field(thread, field) => write!(f, "thread {thread}: its {field}"),
            spot => write!(f, "{spot}"),
        }
    }
}

// Number m of the threads' fields.
fn thread_spot(version: u16, m: usize) -> Spot {
    // version 1 lacks the last field
    let width = if version == 1 { 7 } else { 8 };
    let field = match m % width {
        0 => Field::Domain,
        1 => Field::Priority,
        2 => Field::Period,
        3 => Field::Offset,
        4 => Field::Budget,
        5 => Field::Deadline,
        6 => Field::Blocking,
        _ => Field::Kind,
    };
    Spot::Field(m / width, field)
}

// What number k is, by the version and the domains before it.
pub fn spot_of(c: &Cause, k: usize) -> Spot {
    let rows = c.numbers[1] as usize;
    match k {
        0 => Spot::Head(Head::Version),
        1 => Spot::Head(Head::Domains),
        2 => Spot::Head(Head::Threads),
        _ if k - 3 < rows => Spot::Row(k - 3),
        _ => thread_spot(c.numbers[0], k - 3 - rows),
    }
}
