// The check of a table of corrections, whose cells may be below zero: refusals 1 to 4.
#![tactic(auto)]

ghost use Rattle.std.specs.Prelude.{◌≡◌, ◌≤◌};
ghost use Rattle.correction_check.specs.Check.{cell_within, cells_within};
ghost use Rattle.correction_check.specs.Clauses.{check_of};

use refusals::Refusal;
use table::Table;
use table::check::sizes;

// Whether a cell is at most a bound, and at least its opposite.
fn cell_within(cell: i32, bound: u32) -> bool
    ensures { result ≡ cell_within bound cell }
{
    let high = i64::from(bound);
    (-high..=high).contains(&i64::from(cell))
}

// Whether each cell is from -1000 to 1000 times the denominator.
fn cells_within(denominator: u32, cells: &[i32]) -> bool
    requires { denominator ≤ Table.MAX_DENOMINATOR }
    ensures { result ≡ cells_within denominator cells.now }
{
    let bound = Table::MAX_EXPECTED * denominator;
    cells.iter().all(|x| cell_within(*x, bound))
}

// The sizes of a table of corrections, or the lowest refusal that applies.
// stays: `table::check::check` has the same two steps over cells without a sign; a trait for the test of a cell, for both, would be longer than the steps
pub fn check(rows: u32, columns: u32, denominator: u32, cells: &[i32]) -> Result<Table, Refusal>
    ensures { result ≡ check_of rows columns denominator cells.now }
{
    let t = sizes(rows, columns, denominator, cells.len())?;
    if !cells_within(denominator, cells) {
        return Err(Refusal::LargeCell);
    }
    Ok(t)
}
