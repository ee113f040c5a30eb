// Pooled cells.
ghost use Rattle.std.specs.Prelude.{◌≡◌, ◌+◌, ◌*◌};
ghost use Rattle.base.specs.Buffers.{written};
ghost use Rattle.table.specs.Check.{cells_within};
ghost use Rattle.pool.specs.Pool.{scaled_cells};
ghost use Rattle.pool.specs.Clauses.{Factors, Scaled, Writable};

use crate::Scale;
use table::Table;

// A pooled cell of a cell of each table. A factor is at most 65,535, so it stays below 2^49 whatever the two cells are.
fn pooled_cell(s: Scale, x: u32, y: u32) -> u64
    requires { Factors s }
    ensures { result ≡ s.first * x + s.second * y }
{
    s.first * u64::from(x) + s.second * u64::from(y)
}

// Whether each pooled cell is at most 1000 times the pooled denominator.
pub fn pooled_within(s: Scale, first: &[u32], second: &[u32]) -> bool
    requires { Scaled s first.now second.now }
    ensures { result ≡ cells_within s.denominator (scaled_cells s.first s.second first.now second.now) }
{
    let bound = u64::from(Table::MAX_EXPECTED) * s.denominator;
    first
        .iter()
        .zip(second)
        .all(|(x, y)| pooled_cell(s, *x, *y) <= bound)
}

// Writes the pooled cells.
pub fn write_pooled(s: Scale, first: &[u32], second: &[u32], cells: &mut [u32])
    requires { Writable s first.now second.now cells.old }
    ensures { cells.new ≡ written (scaled_cells s.first s.second first.now second.now) cells.old }
{
    for (i, x) in first.iter().enumerate() {
        cells[i] = pooled_cell(s, *x, second[i]) as u32;
    }
}
