// Where the input, a line or a field ends too early or too late: 1 and 10.
use super::digits::{explain_stray, is_stray};
use super::name::{Spot, Subject, spot_of};
use super::page::put;
use super::{Cause, Form, Found};

// Whether a line ends behind a number, by the number after it.
fn is_last(s: Spot, next: Spot) -> bool {
    match (s, next) {
        (Spot::Head(_), Spot::Head(_)) => false,
        (Spot::Field(i, _), Spot::Field(j, _)) => i != j,
        _ => true,
    }
}

// The input ends before a number or inside it.
fn explain_cut(out: &mut [u8], what: &str, c: &Cause, s: Spot) -> usize {
    let place = if c.found == Found::Nothing {
        "before"
    } else {
        "inside"
    };
    put(out, format_args!("{what} {place} {s}\n"))
}

// 1 in the comma form: a line ends where a comma is due, or what stands there is no field.
fn explain_field_end(out: &mut [u8], c: &Cause, s: Spot, next: Spot) -> usize {
    if c.behind {
        return put(
            out,
            format_args!("the line ends behind {s}, and {next} is missing\n"),
        );
    }
    match c.found {
        Found::Empty => {
            let s = Subject(s);
            put(out, format_args!("{s} is missing\n"))
        }
        Found::Strange(sign) if is_stray(sign) => explain_stray(out, sign, s),
        Found::Digits | Found::Strange(_) if is_last(s, next) => put(
            out,
            format_args!("the text ends with {s}, and the end of the line (CR LF) is missing\n"),
        ),
        _ => explain_cut(out, "the text ends", c, s),
    }
}

// 1, at number k.
pub fn explain_end(out: &mut [u8], form: Form, c: &Cause, k: usize, s: Spot) -> usize {
    match form {
        Form::Bytes => explain_cut(out, "the bytes end", c, s),
        Form::Sheet => explain_field_end(out, c, s, spot_of(c, k.saturating_add(1))),
    }
}

// 10: behind a number, or behind the last thread, where the table has one.
pub fn explain_rest(out: &mut [u8], form: Form, c: &Cause) -> usize {
    if let (true, Some(k)) = (c.behind, c.at) {
        let s = spot_of(c, k);
        return put(
            out,
            format_args!("a comma stands behind {s}, where the line has to end\n"),
        );
    }
    match (c.numbers[2].checked_sub(1), form) {
        (None, _) => put(out, "there is text after the last line\n"),
        (Some(last), Form::Sheet) => put(
            out,
            format_args!("there is text after the line of thread {last}, which is the last\n"),
        ),
        (Some(last), Form::Bytes) => put(
            out,
            format_args!("there are bytes after those of thread {last}, which is the last\n"),
        ),
    }
}
