// The check of a table's numbers: refusals 1 to 4.
ghost use Rattle.std.specs.Prelude.{◌≡◌, ◌≤◌, eqb, Ok, Err, MatchResult};
ghost use Rattle.table.specs.Check.{up_to, size_within, denominator_within, cells_within};
ghost use Rattle.table.specs.Clauses.{IsTable, sizes_of, check_of};

use crate::{Refusal, Table};

// Whether a number is from 1 to a bound.
pub fn up_to(bound: u32, n: u32) -> bool
    ensures { result ≡ up_to bound n }
{
    (1..=bound).contains(&n)
}

// Whether each cell is at most 1000 times the denominator.
pub fn cells_within(denominator: u32, cells: &[u32]) -> bool
    requires { denominator ≤ Table.MAX_DENOMINATOR }
    ensures { result ≡ cells_within denominator cells.now }
{
    let bound = Table::MAX_EXPECTED * denominator;
    cells.iter().all(|x| *x <= bound)
}

// Whether rows and columns are within their bounds: else 1.
pub fn size_within(rows: u32, columns: u32) -> bool
    ensures { result ≡ size_within rows columns }
{
    up_to(Table::MAX_ROWS, rows) && up_to(Table::MAX_COLUMNS, columns)
}

// Whether the denominator is within its bounds: else 2.
pub fn denominator_within(denominator: u32) -> bool
    ensures { result ≡ denominator_within denominator }
{
    up_to(Table::MAX_DENOMINATOR, denominator)
}

// Whether there are as many cells as there have to be: else 3.
pub fn count_is(count: usize, cells: usize) -> bool
    ensures { result ≡ eqb count cells }
{
    count == cells
}

// The sizes of a table of `count` cells, or the lowest of 1 to 3 that applies.
pub fn sizes(rows: u32, columns: u32, denominator: u32, count: usize) -> Result<Table, Refusal>
    ensures { result ≡ sizes_of rows columns denominator count }
{
    if !size_within(rows, columns) {
        return Err(Refusal::Size);
    }
    if !denominator_within(denominator) {
        return Err(Refusal::Denominator);
    }
    if !count_is(count, (rows as usize) * (columns as usize)) {
        return Err(Refusal::CellCount);
    }
    Ok(Table {
        rows: rows as usize,
        columns: columns as usize,
        denominator: u64::from(denominator),
    })
}

// The table's sizes, or the lowest refusal that applies.
// stays: `correction_check::check` has the same two steps over cells with a sign; a trait for the test of a cell, for both, would be longer than the steps
pub fn check(rows: u32, columns: u32, denominator: u32, cells: &[u32]) -> Result<Table, Refusal>
    ensures { result ≡ check_of rows columns denominator cells.now }
{
    let t = sizes(rows, columns, denominator, cells.len())?;
    if !cells_within(denominator, cells) {
        return Err(Refusal::LargeCell);
    }
    Ok(t)
}

// An accepted table: its sizes and its cells.
#[derive(Clone, Copy)]
pub struct Accepted<'a> {
    pub sizes: Table,
    pub cells: &'a [u32],
    pub ghost accepted: { IsTable sizes.rows sizes.columns sizes.denominator cells.now },
}

// The table of these numbers, or the lowest refusal that applies.
pub fn accept<'a>(
    rows: u32,
    columns: u32,
    denominator: u32,
    cells: &'a [u32],
) -> Result<Accepted<'a>, Refusal>
    ensures { MatchResult result
        (λ t. (t.cells.now ≡ cells.now) × (check_of rows columns denominator cells.now ≡ Ok t.sizes))
        (λ x. check_of rows columns denominator cells.now ≡ Err x) }
{
    let sizes = check(rows, columns, denominator, cells)?;
    Ok(Accepted { sizes, cells })
}
