// Rounding of stock corrections: the first controlled rounding of a table whose cells may be below zero.
#![tactic(auto)]

ghost use Rattle.std.specs.Prelude.{◌≡◌, List, map, ℕ, ℤ, pos, length, None};
ghost use Rattle.base.specs.Buffers.{written};
ghost use Rattle.refusals.specs.Due.{Answers};
ghost use Rattle.corrections.specs.Rounding.{IsFirst, first_rounding};
ghost use Rattle.correction_check.specs.Check.{table_refusal};
ghost use Rattle.corrections.specs.Call.{round_refusal};
ghost use Rattle.corrections.specs.Same.{reply_of, natural_reply};
ghost use Rattle.corrections.specs.Examples.{rounded, rounded_of, candidates, rounds_sheet, calls, outcome, said};
ghost use Rattle.corrections.specs.Clauses.{SheetReady};

use crate::counts::{counts, remainders};
use correction_check::check;
use refusals::Refusal;
use rounding::write_rounding;
use table::Table;
use table::check::Accepted;

mod counts;

// Writes the first controlled rounding of an accepted table of corrections. Of each cell a whole multiple of the denominator is set aside; what is left over is a
// table without a cell below zero, and its first controlled rounding, with the multiples added, is that of the corrections.
fn write_counts(t: Table, cells: &[i32], out: &mut [i16])
    requires { SheetReady t.rows t.columns t.denominator cells.now out.old }
    ensures { out.new ≡ written (first_rounding t.rows t.columns t.denominator cells.now) out.old }
{
    let n = cells.len();
    let mut rests = [0u32; 144];
    remainders(cells, t.denominator, &mut rests);
    let left = Accepted {
        sizes: t,
        cells: &rests[..n],
    };
    let mut firsts = [0u16; 144];
    write_rounding(&left, &mut firsts);
    counts(cells, t.denominator, &firsts, out);
}

// Writes the first controlled rounding of a table of corrections, or returns the lowest refusal that applies.
// stays: beside rounding::round, which has cells of another type; one generic function would need a trait with a check and a writer, and be longer than both
pub fn round(
    rows: u32,
    columns: u32,
    denominator: u32,
    cells: &[i32],
    out: &mut [i16],
) -> Result<(), Refusal>
    ensures { Answers (round_refusal rows columns denominator cells.now (length out.old))
        (written (first_rounding rows columns denominator cells.now) out.old) out.old result out.new }
{
    let t = check(rows, columns, denominator, cells)?;
    if out.len() < t.rows * t.columns {
        return Err(Refusal::Buffer);
    }
    write_counts(t, cells, out);
    Ok(())
}

// Every accepted table of corrections has a controlled rounding, and what the call writes is the first of them. On a table without a cell below zero the whole
// answer is that of the call "rounding". And the literal cases are as stated: single entries rounded, arrays that are controlled roundings and arrays that are
// not, and calls.
pub fn claims()
    ensures exists { (r c d : ℕ) (g : List ℤ) → table_refusal r c d g ≡ None → IsFirst r c d g (first_rounding r c d g) }
    ensures same { (r c d : ℕ) (g buffer : List ℕ) → reply_of r c d (map pos g) (map pos buffer) ≡ natural_reply r c d g buffer }
    ensures rounded { map rounded_of rounded ≡ rounded }
    ensures candidates { map rounds_sheet candidates ≡ map (λ x. x.rounds) candidates }
    ensures calls { map outcome calls ≡ map said calls }
{}
