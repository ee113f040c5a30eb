// The first entry, in the order of the entries, whose limit is a given number. Limits stand at the places of the grid of 13 by 13.
#![tactic(auto)]

ghost use Rattle.std.specs.Prelude.{◌≡◌, ℕ, unwrap_or};
ghost use Rattle.base.specs.Search.{first_that};
ghost use Rattle.grid.specs.Clauses.{grid_order};
ghost use Rattle.limit_search.specs.Clauses.{block, InGrid, block_places, holds, Sizes};

// The first place that holds x of a block of the grid, row by row: so many rows from `top` on, and columns from `left` on.
fn first_in(
    l: &[u64; 169],
    x: u64,
    top: usize,
    left: usize,
    rows: usize,
    columns: usize,
) -> Option<usize>
    requires { InGrid (block top left rows columns) }
    ensures { (other : ℕ) → unwrap_or result other ≡ first_that (holds l.now x) (block_places (block top left rows columns)) other }
{
    // stays: a place is computed from the number of its row, so a form without that number is no plainer
    for i in 0..rows {
        let first = (top + i) * 13 + left;
        let row = &l[first..first + columns];
        if let Some(j) = row.iter().position(|y| *y == x) {
            return Some(first + j);
        }
    }
    None
}

// The place of the first entry whose limit is x: cells, row totals, column totals, grand total.
pub fn first_place(l: &[u64; 169], x: u64, rows: usize, columns: usize) -> usize
    requires { Sizes rows columns }
    ensures { result ≡ first_that (holds l.now x) (grid_order rows columns) 168 }
{
    let cell = first_in(l, x, 0, 0, rows, columns);
    let row = first_in(l, x, 0, 12, rows, 1);
    let column = first_in(l, x, 12, 0, 1, columns);
    cell.or(row).or(column).unwrap_or(168)
}
