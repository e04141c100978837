// Bytes with one thing wrong.
use dice::{any, below};
use rival_bytes::Page;

// What is wrong with bytes.
#[derive(Clone, Copy, Debug, PartialEq, Eq)]
pub enum ByteDamage {
    Nothing,
    AnyValue,
    OneMore,
    OneLess,
    TopBit,
    Cut,
    // more bytes behind the last
    Behind,
    // a number in a longer form
    Longer,
    TooLarge,
    // a number too large in its third byte
    ThirdByte,
}

impl ByteDamage {
    pub const ALL: [ByteDamage; 10] = [
        ByteDamage::Nothing,
        ByteDamage::AnyValue,
        ByteDamage::OneMore,
        ByteDamage::OneLess,
        ByteDamage::TopBit,
        ByteDamage::Cut,
        ByteDamage::Behind,
        ByteDamage::Longer,
        ByteDamage::TooLarge,
        ByteDamage::ThirdByte,
    ];
}

// From a place on so many bytes are left out, and room is made for so many others.
pub fn moved<const N: usize>(p: Page<N>, at: usize, out: usize, room: usize) -> Page<N> {
    let mut q = p;
    for i in at..N {
        q.set(i, p.byte(i.wrapping_add(out).wrapping_sub(room)));
    }
    q.len = p.len.wrapping_add(room).wrapping_sub(out);
    q
}

pub fn with_byte<const N: usize>(p: Page<N>, at: usize, b: u8) -> Page<N> {
    let mut q = p;
    q.set(at, b);
    q
}

// The first so many bytes; with more of them those behind the last count too.
pub fn with_len<const N: usize>(p: Page<N>, len: usize) -> Page<N> {
    let mut q = p;
    q.len = len;
    q
}

// A number that is too large: a third byte that says that another follows, or a value above 65,535.
fn huge(p: Page<900>, at: usize, last: u8) -> Page<900> {
    let mut q = moved(p, at, 0, 2);
    q.set(at, 255);
    q.set(at % 800 + 1, 255);
    q.set(at % 800 + 2, last);
    q
}

pub fn bytes(seed: u64, p: Page<900>, damage: ByteDamage) -> Page<900> {
    let at = below(seed, 1, (p.len % 900) as u32) as usize % 800;
    let b = p.byte(at);
    match damage {
        ByteDamage::Nothing => p,
        ByteDamage::AnyValue => with_byte(p, at, any(seed, 2)),
        ByteDamage::OneMore => with_byte(p, at, b.wrapping_add(1)),
        ByteDamage::OneLess => with_byte(p, at, b.wrapping_sub(1)),
        ByteDamage::TopBit => with_byte(p, at, b ^ 128),
        ByteDamage::Cut => with_len(p, at),
        ByteDamage::Behind => { with_len(p, p.len.wrapping_add(1 + below(seed, 3, 3u16) as usize)) }
        ByteDamage::Longer => with_byte(with_byte(moved(p, at, 0, 1), at, b | 128), at + 1, 0),
        ByteDamage::TooLarge => huge(p, at, 4),
        ByteDamage::ThirdByte => huge(p, at, 132),
    }
}
