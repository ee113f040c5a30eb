// The call "rounding": the first controlled rounding of a table.
#![tactic(auto)]

ghost use Rattle.std.specs.Prelude.{◌≡◌, ◌*◌, ◌≤◌, map, length};
ghost use Rattle.refusals.specs.Due.{Answers};
ghost use Rattle.base.specs.Buffers.{written};
ghost use Rattle.first_rounding.specs.First.{first_rounding};
ghost use Rattle.rounding.specs.Call.{round_refusal};
ghost use Rattle.rounding.specs.Examples.{round_cases, rounded, said};

use first_rounding::round_grid;
use grid::entries;
use grid::write::write_cells;
use refusals::Refusal;
use table::check::{Accepted, accept};

// Writes the first controlled rounding of an accepted table.
pub fn write_rounding(t: &Accepted, counts: &mut [u16])
    requires { t.now.sizes.rows * t.now.sizes.columns ≤ length counts.old }
    ensures { counts.new ≡ written (first_rounding t.now.sizes.rows t.now.sizes.columns t.now.sizes.denominator t.now.cells.now) counts.old }
{
    let rows = t.sizes.rows;
    let columns = t.sizes.columns;
    let e = entries(t.sizes, t.cells);
    let mut low = [0u64; 169];
    let mut n = [0u64; 169];
    round_grid(&e, t.sizes.denominator, &mut low, &mut n);
    write_cells(&n, rows, columns, counts, 0);
}

// Writes the first controlled rounding of a table, or returns the lowest refusal that applies.
pub fn round(
    rows: u32,
    columns: u32,
    denominator: u32,
    cells: &[u32],
    counts: &mut [u16],
) -> Result<(), Refusal>
    ensures { Answers (round_refusal rows columns denominator cells.now (length counts.old))
        (written (first_rounding rows columns denominator cells.now) counts.old) counts.old result counts.new }
{
    let t = accept(rows, columns, denominator, cells)?;
    if counts.len() < t.cells.len() {
        return Err(Refusal::Buffer);
    }
    write_rounding(&t, counts);
    Ok(())
}

// The literal calls are as stated, with 7 beside each other refusal.
pub fn claims()
    ensures calls { map rounded round_cases ≡ map said round_cases }
{}
