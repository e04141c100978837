// Random numbers that are the same in each run: draw k of a seed is worked out from the two alone, and no call changes a seed.
#![tactic(auto)]

// A product of the lower half, whose two halves are folded into one another.
fn stirred(x: u64) -> u64 {
    let y = (x % 4294967296 * 3266489917).wrapping_add(x / 4294967296);
    y ^ (y >> 32)
}

// A seed of its own for part k. Three rounds bring every bit of the seed and of k into every bit, the lowest too; and there is
// no row of numbers that could come round again.
pub fn part(seed: u64, k: u32) -> u64 {
    stirred(stirred(stirred(seed ^ (k as u64 * 2654435769))))
}

// A number of 8, 16 or 32 bits, which can be drawn.
pub trait Draw: Copy {
    // So many of the lowest bits.
    fn lowest(bits: u64) -> Self;

    // The remainder of a division; 0 where n is 0.
    fn remainder(self, n: Self) -> Self;
}

impl Draw for u8 {
    fn lowest(bits: u64) -> u8 {
        (bits % 256) as u8
    }

    fn remainder(self, n: u8) -> u8 {
        self.checked_rem(n).unwrap_or(0)
    }
}

impl Draw for u16 {
    fn lowest(bits: u64) -> u16 {
        (bits % 65536) as u16
    }

    fn remainder(self, n: u16) -> u16 {
        self.checked_rem(n).unwrap_or(0)
    }
}

impl Draw for u32 {
    fn lowest(bits: u64) -> u32 {
        (bits % 4294967296) as u32
    }

    fn remainder(self, n: u32) -> u32 {
        self.checked_rem(n).unwrap_or(0)
    }
}

// Any number of the type.
pub fn any<T: Draw>(seed: u64, k: u32) -> T {
    T::lowest(part(seed, k))
}

// From 0 to n - 1; 0 where n is 0.
pub fn below<T: Draw>(seed: u64, k: u32, n: T) -> T {
    let drawn: T = any(seed, k);
    drawn.remainder(n)
}

// From low to high, both counted.
pub fn between(seed: u64, k: u32, low: u16, high: u16) -> u16 {
    let width = high.wrapping_sub(low).wrapping_add(1);
    low.wrapping_add(below(seed, k, width))
}

// Once in n times.
pub fn seldom(seed: u64, k: u32, n: u16) -> bool {
    below(seed, k, n) == 0
}
