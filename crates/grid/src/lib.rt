// The entries of a table in a grid of 13 by 13, the totals in row and column 12, whatever the table's size.
#![tactic(auto)]

ghost use Rattle.std.specs.Prelude.{◌≡◌, List, map, ℕ, get_or, Ok};
ghost use Rattle.table.specs.Table.{entries};
ghost use Rattle.grid.specs.Clauses.{grid_at, grid_of, grid_order};
ghost use Rattle.table.specs.Clauses.{Shape, check_of};

use std::array::from_fn;
use table::Table;
use table::sums::sum;

pub mod write;

// The entry at row p and column q of the grid.
// stays: only the shape of the table is asked; an `Accepted` would ask more
pub fn entry(t: Table, cells: &[u32], p: usize, q: usize) -> u64
    requires { Shape t.rows t.columns cells.now }
    ensures { result ≡ grid_at t.rows t.columns cells.now p q }
{
    let (rows, columns) = (t.rows, t.columns);
    match (p < 12, q < 12) {
        (true, true) if p < rows && q < columns => sum(cells, p * columns + q, 1, 1),
        (true, false) if p < rows => sum(cells, p * columns, 1, columns),
        (false, true) if q < columns => sum(cells, q, columns, rows),
        (false, false) => sum(cells, 0, 1, rows * columns),
        _ => 0,
    }
}

// The entries, each at its place of the grid.
pub fn entries(t: Table, cells: &[u32]) -> [u64; 169]
    requires { Shape t.rows t.columns cells.now }
    ensures { result ≡ grid_of t.rows t.columns cells.now }
{
    from_fn(|k| entry(t, cells, k / 13, k % 13))
}

// What holds of every accepted table: the grid has its entries, in their order, at the places of `grid_order`.
pub fn in_order()
    ensures { (r c d : ℕ) (g : List ℕ) (t : Table) → Ok t ≡ check_of r c d g
        → entries r c g ≡ map (λ k. get_or (grid_of r c g) k 0) (grid_order r c) }
{}
