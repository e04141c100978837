// How a number is written: 2 and 3.
use super::name::{Spot, Subject};
use super::page::put;
use super::{Cause, Form, Found};

// 3.
pub fn explain_large(out: &mut [u8], s: Spot) -> usize {
    let s = Subject(s);
    put(
        out,
        format_args!("{s} is too large, and 65535 is the most\n"),
    )
}

// Whether a line's end is only half there.
pub fn is_stray(sign: u8) -> bool {
    matches!(sign, b'\n' | b'\r')
}

// LF without CR, or CR without LF.
pub fn explain_stray(out: &mut [u8], sign: u8, s: Spot) -> usize {
    let (has, lacks) = if sign == b'\n' {
        ("LF", "CR")
    } else {
        ("CR", "LF")
    };
    put(
        out,
        format_args!("behind {s} stands {has} without {lacks}: each line ends with CR LF\n"),
    )
}

// A character that is no digit. One that prints is shown.
fn explain_sign(out: &mut [u8], sign: u8, s: Spot) -> usize {
    let s = Subject(s);
    match sign {
        b' ' => put(out, format_args!("{s} has a space, which is no digit\n")),
        b'#' => put(
            out,
            format_args!("{s} has a number sign, which is no digit\n"),
        ),
        b'-' => put(
            out,
            format_args!("{s} has a minus sign, and no number is below 0\n"),
        ),
        b';' => put(
            out,
            format_args!("{s} has a semicolon, and commas part the fields\n"),
        ),
        b'!'..=b'~' => {
            let shown = sign as char;
            put(
                out,
                format_args!("{s} has the character {shown}, which is no digit\n"),
            )
        }
        _ => put(
            out,
            format_args!("{s} has a character that is no digit (byte {sign})\n"),
        ),
    }
}

// The first byte of a byte order mark, before the first number.
const MARK: u8 = 239;

// 2.
pub fn explain_form(out: &mut [u8], form: Form, c: &Cause, s: Spot) -> usize {
    let subject = Subject(s);
    match (form, c.found) {
        (Form::Bytes, _) => put(out, format_args!("{subject} is not in its shortest form\n")),
        (_, Found::Strange(sign)) if is_stray(sign) => explain_stray(out, sign, s),
        (_, Found::Strange(MARK)) if c.at == Some(0) => put(
            out,
            "the text starts with a byte order mark: save it without one\n",
        ),
        (_, Found::Strange(sign)) => explain_sign(out, sign, s),
        _ => put(
            out,
            format_args!("{subject} has a zero before another digit\n"),
        ),
    }
}
