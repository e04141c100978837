// Lists of a fixed length that are filled from the front.
ghost use Rattle.std.specs.Prelude.{◌≡◌, ◌+◌, ◌<◌, set, ltb};
ghost use Rattle.basis.specs.Tests.{pick};

// A value stored; behind the last place none is.
pub fn stored<T: Copy, const N: usize>(mut xs: [T; N], n: u8, x: T) -> [T; N]
    ensures { result ≡ set xs n x }
{
    if (n as usize) < N {
        xs[n as usize] = x;
    }
    xs
}

// One more, up to the largest count that is told.
#[tactic(auto, unfolding(basis::specs::Tests::pick))]
pub fn one_more(n: u8, most: u8) -> u8
    ensures { result ≡ pick (ltb n most) (n + 1) n }
{
    if n < most { n + 1 } else { n }
}
