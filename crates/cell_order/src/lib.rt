// The order in which cells are compared, of tables of any size. A grid of 12 by 12 cells holds every table, and its cells are gone through in this order.
#![tactic(auto)]

ghost use Rattle.std.specs.Prelude.{◌≡◌, [], ◌∷◌, map};
ghost use Rattle.cell_order.specs.Order.{nth_row, nth_column, rank};
ghost use Rattle.cell_order.specs.Clauses.{Some};

// The row of the n-th cell of a table.
pub fn nth_row(rows: usize, columns: usize, n: usize) -> usize
    requires { Some rows columns }
    ensures { result ≡ nth_row rows columns n }
{
    n / columns
}

// The column of the n-th cell of a table.
pub fn nth_column(rows: usize, columns: usize, n: usize) -> usize
    requires { Some rows columns }
    ensures { result ≡ nth_column rows columns n }
{
    n % columns
}

// The order of two rows and three columns, by the row and the column of its cells, and by the rank of the cells of each row.
pub fn claims()
    ensures rows { map (nth_row 2 3) (0 ∷ 1 ∷ 2 ∷ 3 ∷ 4 ∷ 5 ∷ []) ≡ 0 ∷ 0 ∷ 0 ∷ 1 ∷ 1 ∷ 1 ∷ [] }
    ensures columns { map (nth_column 2 3) (0 ∷ 1 ∷ 2 ∷ 3 ∷ 4 ∷ 5 ∷ []) ≡ 0 ∷ 1 ∷ 2 ∷ 0 ∷ 1 ∷ 2 ∷ [] }
    ensures first_row { map (rank 2 3 0) (0 ∷ 1 ∷ 2 ∷ []) ≡ 0 ∷ 1 ∷ 2 ∷ [] }
    ensures second_row { map (rank 2 3 1) (0 ∷ 1 ∷ 2 ∷ []) ≡ 3 ∷ 4 ∷ 5 ∷ [] }
{}
