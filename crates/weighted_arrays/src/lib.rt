// Arrays with weights: what a plan is, and sums of arrays times a factor.
#![tactic(auto)]

ghost use Rattle.std.specs.Prelude.{◌≡◌, ◌≤◌, length};
ghost use Rattle.table.specs.Table.{max_cells};
ghost use Rattle.weighted_arrays.specs.Clauses.{Addable, Increased, cells_met};

// Adds an array times a factor to some sums, one a cell.
pub fn add_weighted(factor: u32, counts: &[u16], sums: &mut [u64; 144])
    requires { Addable counts.now sums.old }
    ensures { Increased factor counts.now sums.old sums.new }
{
    let f = u64::from(factor);
    for (i, count) in counts.iter().enumerate() {
        sums[i] += f * u64::from(*count);
    }
}

// Whether each cell is its sum.
pub fn cells_met(cells: &[u32], sums: &[u64; 144]) -> bool
    requires { length cells.now ≤ max_cells }
    ensures { result ≡ cells_met cells.now sums.now }
{
    cells.iter().zip(sums).all(|(x, s)| *s == u64::from(*x))
}
