// A writer, from any place of a buffer of any room, held against a second writer.
use crate::Kind;
use basis::Refusal;
use dice::below;
use rival_bytes::Page;
use rival_table::{legal, unless};
use table::Table;
use tally::agreed;

// What stands in a buffer before.
const BEFORE: u8 = 170;

// What a second writer says of so many bytes: the place behind them.
pub fn wanted(t: Table, len: usize, room: usize, at: usize) -> Result<usize, Refusal> {
    unless(legal(t), Refusal::NotLegal)?;
    let end = at.wrapping_add(len);
    unless(end <= room, Refusal::NoRoom)?;
    Ok(end)
}

// Whether the bytes of a page stand from a place up to another, and all others are as before.
fn is_there<const N: usize>(buf: &[u8], page: Page<N>, from: usize, to: usize) -> bool {
    buf.iter().enumerate().all(|(i, b)| {
        let inside = from <= i && i < to;
        *b == if inside {
            page.byte(i.wrapping_sub(from))
        } else {
            BEFORE
        }
    })
}

// From the first places on, into as much room as is needed, a byte more or less, or none. The page is what the second writer wrote.
pub fn write<const N: usize, Write: Fn(Table, &mut [u8], usize) -> Result<usize, Refusal>>(
    seed: u64,
    t: Table,
    page: Page<N>,
    write: Write,
) -> Option<Kind>
    requires { Write.IsAlwaysCallable write }
{
    let at = below(seed, 31, 60u16) as usize;
    let end = page.place(at.wrapping_add(page.len));
    let room = match below(seed, 32, 8u16) {
        0 => page.place(end.wrapping_sub(1)),
        1 => at / 2,
        2 | 3 => end,
        4 => end + 1,
        _ => N,
    };
    let mut buf = [BEFORE; N];
    let ours = write(t, &mut buf[..room.min(N)], at);
    if !is_there(&buf, page, at, ours.unwrap_or(0)) {
        return None;
    }
    agreed(
        ours,
        wanted(t, page.len, room, at),
        |written| match written {
            Ok(_) => Kind::Written,
            Err(Refusal::NotLegal) => Kind::NotLegal,
            Err(_) => Kind::NoRoom,
        },
    )
}
