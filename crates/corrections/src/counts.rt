// Cells of either sign, divided by the denominator: what is left over, which is a table without a cell below zero, and the counts from its rounding.
ghost use Rattle.std.specs.Prelude.{◌≡◌};
ghost use Rattle.base.specs.Buffers.{written};
ghost use Rattle.corrections.specs.Clauses.{rests, RestsReady, count_of, counts_of, CountReady, CountsReady};

use division::divide;

// What is left over of each cell.
pub fn remainders(cells: &[i32], denominator: u64, out: &mut [u32])
    requires { RestsReady denominator cells.now out.old }
    ensures { out.new ≡ written (rests denominator cells.now) out.old }
{
    for (k, cell) in cells.iter().enumerate() {
        let d = divide(i64::from(*cell), denominator);
        out[k] = d.rest as u32;
    }
}

// The count of a cell: the cell rounded down, and the count of what is left over.
fn count(cell: i32, denominator: u64, first: u16) -> i16
    requires { CountReady denominator cell first }
    ensures { result ≡ count_of denominator cell first }
{
    let d = divide(i64::from(cell), denominator);
    (d.whole + i64::from(first)) as i16
}

// The counts of all cells.
pub fn counts(cells: &[i32], denominator: u64, firsts: &[u16; 144], out: &mut [i16])
    requires { CountsReady denominator cells.now firsts.now out.old }
    ensures { out.new ≡ written (counts_of denominator cells.now firsts.now) out.old }
{
    for (k, cell) in cells.iter().enumerate() {
        out[k] = count(*cell, denominator, firsts[k]);
    }
}
