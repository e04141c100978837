// Reading number after number until one starts, or ends wrong, at a place.
use super::{Cause, Form, Found};
use basis::Refusal;
use numeral::{Numeral, read_number};
use sheet::{MOST, read_field};

fn number_at(text: &[u8], form: Form, at: usize) -> Result<Numeral, Refusal> {
    match form {
        Form::Bytes => read_number(text, at),
        Form::Sheet => read_field(text, at),
    }
}

// The start of the next number, behind a comma or a CRLF in the comma form.
fn start_behind(text: &[u8], form: Form, end: usize) -> usize {
    match (form, text.get(end)) {
        (Form::Bytes, _) | (_, None) => end,
        (_, Some(b',')) => end + 1,
        _ => end + 2,
    }
}

// What stands at a place, taken for a field of the comma form; in a line of rows LF alone ends it too.
fn found_at(text: &[u8], place: usize, line: bool) -> Found {
    let Some(rest) = text.get(place..) else {
        return Found::Nothing;
    };
    let digits = rest
        .iter()
        .position(|b| !b.is_ascii_digit())
        .unwrap_or(rest.len());
    match &rest[digits..] {
        [] if rest.is_empty() => Found::Nothing,
        [] | [b',', ..] | [b'\r', b'\n', ..] if digits == 0 => Found::Empty,
        [] | [b',', ..] | [b'\r', b'\n', ..] => Found::Digits,
        [b'\n', ..] if line && digits == 0 => Found::Empty,
        [b'\n', ..] if line => Found::Digits,
        [sign, ..] => Found::Strange(*sign),
    }
}

// The number or the end at which a table is refused, in bytes or in the comma form: there only what is found at the place counts as one
// of the comma form.
pub fn find(text: &[u8], form: Form, place: usize) -> Cause {
    let found = found_at(text, place, false);
    let mut numbers = [0u16; MOST];
    let mut next = 0;
    for at in 0..MOST {
        let read = number_at(text, form, next);
        let starts = next == place;
        let ends = form == Form::Sheet && read.is_ok_and(|n| n.next == place);
        if starts || ends {
            return Cause {
                at: Some(at),
                value: read.ok().map(|n| n.value),
                behind: !starts,
                found,
                numbers,
            };
        }
        let Ok(n) = read else { break };
        numbers[at] = n.value;
        next = start_behind(text, form, n.next);
    }
    Cause {
        at: None,
        value: None,
        behind: false,
        found,
        numbers,
    }
}

// The row of domain i, at a place in the text of a line of rows that is refused there, with its value and how many rows there are, where
// that is known. From row 16 on it only counts that there are more.
pub fn row_cause(text: &[u8], place: usize, i: u8, value: Option<u16>, rows: Option<u8>) -> Cause {
    let mut numbers = [0u16; MOST];
    // enough for row i, where the count is not known
    numbers[1] = match rows {
        Some(n) if i < n => n as u16,
        _ => i as u16 + 1,
    };
    Cause {
        at: Some(3 + i as usize),
        value,
        behind: false,
        found: found_at(text, place, true),
        numbers,
    }
}
