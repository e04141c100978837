// A grid of 256 cells, filled from the rows and closed under transitivity: cell 16 * a + b says whether a may flow to b.
// One list of cells, since the definitions of specs/Grid.antt speak of it so.
ghost use Rattle.std.specs.Prelude.{◌≡◌, ◌≤◌, ◌<◌};
ghost use Rattle.mend.specs.Grid.{filled, by_way, closed};
ghost use Rattle.mend.specs.Rows.{row_from, rows_of, mended as the-mended};

use flow::may_flow;
use std::array;

fn fill(rows: [u16; 16]) -> [bool; 256]
    ensures { result ≡ filled rows }
{
    array::from_fn(|c| may_flow(rows, (c / 16) as u8, (c % 16) as u8))
}

// Whether a may flow to b, or to k and k to b.
#[tactic(auto, unfolding(crate::specs::Grid::by_way))]
fn by_way(grid: &[bool; 256], k: usize, a: usize, b: usize) -> bool
    requires { (k < 16) × (a < 16) × (b < 16) }
    ensures { result ≡ by_way grid.now k a b }
{
    grid[16 * a + b] || grid[16 * a + k] && grid[16 * k + b]
}

// By way of each domain k, from each source a, to each target b.
#[tactic(auto, unfolding(crate::specs::Grid::joined, crate::specs::Grid::widened, crate::specs::Grid::passed, crate::specs::Grid::closed))]
fn close(grid: &mut [bool; 256], domains: usize)
    requires { domains ≤ 16 }
    ensures { grid.new ≡ closed domains domains grid.old }
{
    for k in 0..domains {
        for a in 0..domains {
            for b in 0..domains {
                grid[16 * a + b] = by_way(grid, k, a, b);
            }
        }
    }
}

fn row_of(grid: &[bool; 256], a: usize) -> u16
    requires { a < 16 }
    ensures { result ≡ row_from grid.now a 16 }
{
    let mut v = 0;
    for b in (0..16).rev() {
        v = u16::from(grid[16 * a + b]) + 2 * v;
    }
    v
}

fn rows_of(grid: &[bool; 256]) -> [u16; 16]
    ensures { result ≡ rows_of grid.now }
{
    array::from_fn(|a| row_of(grid, a))
}

#[tactic(auto, unfolding(crate::specs::Rows::mended))]
pub fn mended(domains: usize, rows: [u16; 16]) -> [u16; 16]
    requires { domains ≤ 16 }
    ensures { result ≡ the-mended domains rows }
{
    let mut grid = fill(rows);
    close(&mut grid, domains);
    rows_of(&grid)
}
