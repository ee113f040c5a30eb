// The cells of a grid, written out as counts.
ghost use Rattle.std.specs.Prelude.{◌+◌, ◌*◌, length, get_or};
ghost use Rattle.base.specs.Clauses.{Filled};
ghost use Rattle.grid.specs.Clauses.{grid_cell, RowReady, Ready};

// A row of `columns` cells that begins at place `first` of the grid, written from place `at` on.
fn write_row(n: &[u64; 169], first: usize, columns: usize, counts: &mut [u16], at: usize)
    requires { RowReady n.now first columns (length counts.old) at }
    ensures { Filled (λ j. get_or n.now (first + j) 0) at counts.old counts.new columns }
{
    for (j, x) in n[first..first + columns].iter().enumerate() {
        counts[at + j] = *x as u16;
    }
}

// The cells in row order, from place `at` on.
pub fn write_cells(n: &[u64; 169], rows: usize, columns: usize, counts: &mut [u16], at: usize)
    requires { Ready n.now rows columns (length counts.old) at }
    ensures { Filled (grid_cell n.now columns) at counts.old counts.new (rows * columns) }
{
    // stays: a row stands where its number says
    for i in 0..rows {
        write_row(n, i * 13, columns, counts, at + i * columns);
    }
}
