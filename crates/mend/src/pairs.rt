// The pairs that the mended rows have and the given ones have not: how many they are, and their list.
ghost use Rattle.std.specs.Prelude.{◌≡◌, true, ◌++◌, ◌+◌, ◌-◌, ◌≤◌, ◌<◌, length, set, drop};
ghost use Rattle.basis.specs.Tests.{pick};
ghost use Rattle.mend.specs.Rows.{is_added, added, ones_of, count, Counted};

use flow::may_flow;

// Ones in the mended row less ones in the given row.
fn more_ones(row: u16, mended: u16) -> usize
    requires { ones_of row ≤ ones_of mended }
    ensures { (result ≡ ones_of mended - ones_of row) × (result ≤ 16) }
{
    (u16::count_ones(mended) - u16::count_ones(row)) as usize
}

pub fn count_added(rows: [u16; 16], mended: [u16; 16]) -> usize
    requires { Counted rows mended }
    ensures { result ≡ count rows mended 16 }
{
    let mut n = 0;
    for (row, more) in rows.iter().zip(&mended) {
        n += more_ones(*row, *more);
    }
    n
}

#[tactic(auto, unfolding(crate::specs::Rows::is_added))]
fn is_added(rows: [u16; 16], mended: [u16; 16], c: u8) -> bool
    ensures { result ≡ is_added rows mended c }
{
    may_flow(mended, c / 16, c % 16) && !may_flow(rows, c / 16, c % 16)
}

// In the order of the source, and then of the target.
pub fn list_added(rows: [u16; 16], mended: [u16; 16], pairs: &mut [u8])
    requires { length (added rows mended 256) ≤ length pairs.old }
    ensures { pairs.new ≡ added rows mended 256 ++ drop (length (added rows mended 256)) pairs.old }
{
    // tried, and not proved: `pairs.iter_mut().zip(..)`, after which a proof does not know the places
    let mut n = 0;
    for c in 0..=255u8 {
        if is_added(rows, mended, c) {
            pairs[n] = c;
            n += 1;
        }
    }
}
