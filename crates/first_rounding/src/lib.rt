// The first controlled rounding of a table, in the stated order: that there is one, and finding it for a table that is held as a grid.
#![tactic(auto)]

ghost use Rattle.std.specs.Prelude.{◌≡◌, List, ℕ, None};
ghost use Rattle.table.specs.Check.{table_refusal};
ghost use Rattle.first_rounding.specs.First.{IsFirst, first_rounding};
ghost use Rattle.first_rounding.specs.Clauses.{GridReady, rounded_down, RoundedGrid};

use crate::counts::{counts, quotients};
use crate::needs::needs;

mod counts;
mod line;
mod needs;

// The entries n of the first controlled rounding over w of the table with entries e, and these entries over w, rounded down.
pub fn round_grid(e: &[u64; 169], w: u64, low: &mut [u64; 169], n: &mut [u64; 169])
    requires { GridReady w e.now low.old n.old }
    ensures low { low.new ≡ rounded_down w e.now }
    ensures array { RoundedGrid w e.now n.new }
{
    let mut high = [0; 169];
    let mut cap = [0; 169];
    quotients(e, w, low, &mut high, &mut cap);
    let rows = needs(low, &high, 13, 1);
    let cols = needs(low, &high, 1, 13);
    let bits = line_sums::first(&cap, &rows, &cols);
    counts(low, &high, &bits, n);
}

// Every accepted table has a controlled rounding, and the search of the definition finds the first of them.
pub fn claims()
    ensures { (r c d : ℕ) (g : List ℕ) → table_refusal r c d g ≡ None → IsFirst r c d g (first_rounding r c d g) }
{}
