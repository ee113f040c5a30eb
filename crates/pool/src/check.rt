// The check of the two tables that are pooled: refusals 1 to 4.
ghost use Rattle.std.specs.Prelude.{◌≡◌};
ghost use Rattle.pool.specs.Clauses.{parts_answer};

use refusals::{Refusal, lower};
use table::Table;
use table::check::check;

// Two accepted tables of one size: the number of their cells, and their denominators.
#[derive(Clone, Copy)]
pub struct Pair {
    pub cells: usize,
    pub first: u64,
    pub second: u64,
}

// Both tables' cells and denominators, or the lowest refusal that applies to either. d and e are the denominators of the first and of the second.
pub fn check_parts(
    rows: u32,
    columns: u32,
    d: u32,
    first: &[u32],
    e: u32,
    second: &[u32],
) -> Result<Pair, Refusal>
    ensures { result ≡ parts_answer rows columns d first.now e second.now }
{
    let one = check(rows, columns, d, first);
    let other = check(rows, columns, e, second);
    match (one, other) {
        (Ok(t), Ok(u)) => Ok(Pair {
            cells: t.rows * t.columns,
            first: t.denominator,
            second: u.denominator,
        }),
        (Ok(_), Err(y)) => Err(y),
        (Err(x), Ok(_)) => Err(x),
        (Err(x), Err(y)) => Err(lower(x, y)),
    }
}
