// Texts with one thing wrong.
use dice::{any, below, seldom};
use rival_sheet::Sheet;
use spoil::{moved, with_byte, with_len};

// What is wrong with a text.
#[derive(Clone, Copy, Debug, PartialEq, Eq)]
pub enum TextDamage {
    Nothing,
    AnyValue,
    OtherChar,
    Dropped,
    Doubled,
    ZeroBefore,
    DigitsBefore,
    // the end of a line without its CR, without its LF and without both
    NoCr,
    NoLf,
    NoCrlf,
    // a comma in place of the end of a line
    CommaForCrlf,
    MoreCrlf,
    Cut,
    // the last characters dropped, and more behind them
    LastDropped,
    Behind,
    CrlfForComma,
}

impl TextDamage {
    pub const ALL: [TextDamage; 16] = [
        TextDamage::Nothing,
        TextDamage::AnyValue,
        TextDamage::OtherChar,
        TextDamage::Dropped,
        TextDamage::Doubled,
        TextDamage::ZeroBefore,
        TextDamage::DigitsBefore,
        TextDamage::NoCr,
        TextDamage::NoLf,
        TextDamage::NoCrlf,
        TextDamage::CommaForCrlf,
        TextDamage::MoreCrlf,
        TextDamage::Cut,
        TextDamage::LastDropped,
        TextDamage::Behind,
        TextDamage::CrlfForComma,
    ];
}

fn with_crlf(p: Sheet, at: usize) -> Sheet {
    with_byte(with_byte(p, at, 13), at.wrapping_add(1), 10)
}

fn digit(seed: u64, k: u32) -> u8 {
    48 + below(seed, k, 10u8) % 10
}

// Room for n digits, and the digits.
fn with_digits(seed: u64, p: Sheet, at: usize, n: u32) -> Sheet {
    let mut q = moved(p, at, 0, n as usize);
    for k in 0..n {
        q.set(at.wrapping_add(k as usize), digit(seed, k));
    }
    q
}

// How many digits: one to three, seldom more than a number has.
fn many(seed: u64) -> u32 {
    let n = below(seed, 6, 3u16) as u32;
    if seldom(seed, 5, 8) {
        return 70 + n;
    }
    1 + n
}

// A character that a text has, or that one meets in a spreadsheet.
fn some_char(seed: u64) -> u8 {
    match below(seed, 2, 12u16) {
        0 => 44,
        1 => 13,
        2 => 10,
        3 => 32,
        4 => 34,
        5 => 45,
        6 => 59,
        7 => 239,
        8 => 48,
        _ => digit(seed, 3),
    }
}

// The first place from this on where this character stands, or this.
fn next(p: Sheet, at: usize, b: u8) -> usize {
    let found = p.bytes.iter().skip(at).position(|c| *c == b);
    at.wrapping_add(found.unwrap_or(0))
}

pub fn text(seed: u64, p: Sheet, damage: TextDamage) -> Sheet {
    let at = below(seed, 1, (p.len % 2000) as u32) as usize;
    let cr = next(p, at, 13);
    let comma = next(p, at, 44);
    let few = 1 + below(seed, 7, 2u16) as usize;
    match damage {
        TextDamage::Nothing => p,
        TextDamage::AnyValue => with_byte(p, at, any(seed, 4)),
        TextDamage::OtherChar => with_byte(p, at, some_char(seed)),
        TextDamage::Dropped => moved(p, at, 1, 0),
        TextDamage::Doubled => with_byte(moved(p, at, 0, 1), at, p.byte(at)),
        TextDamage::ZeroBefore => with_byte(moved(p, at, 0, 1), at, 48),
        TextDamage::DigitsBefore => with_digits(seed, p, at, many(seed)),
        TextDamage::NoCr => moved(p, cr, 1, 0),
        TextDamage::NoLf => moved(p, cr.wrapping_add(1), 1, 0),
        TextDamage::NoCrlf => moved(p, cr, 2, 0),
        TextDamage::CommaForCrlf => with_byte(moved(p, cr, 1, 0), cr, 44),
        TextDamage::MoreCrlf => with_crlf(moved(p, cr, 0, 2), cr),
        TextDamage::Cut => with_len(p, at),
        TextDamage::LastDropped => with_len(p, p.len.wrapping_sub(few)),
        TextDamage::Behind => {
            with_len(
                with_byte(p, p.len, some_char(seed)),
                p.len.wrapping_add(few),
            )
        }
        TextDamage::CrlfForComma => with_crlf(moved(p, comma, 0, 1), comma),
    }
}
