// The controlled rounding after one of a table of up to four by four, in the stated order: the arrays after it are gone through by their numbers.
#![tactic(auto)]

ghost use Rattle.std.specs.Prelude.{◌≡◌, List, ℕ, None};
ghost use Rattle.table.specs.Check.{table_refusal};
ghost use Rattle.next_rounding.specs.Next.{Follows, next_rounding};
ghost use Rattle.next_rounding.specs.Clauses.{NextReady, Found};

use crate::arrays::Numbering;
use table::check::Accepted;

mod arrays;

// Writes the controlled rounding after one of an accepted table, and returns true; false where there is none.
pub fn write_next(t: &Accepted, array: &[u16], counts: &mut [u16]) -> bool
    requires { NextReady t.now.sizes.rows t.now.sizes.columns t.now.sizes.denominator t.now.cells.now array.now counts.old }
    ensures { Found (next_rounding t.now.sizes.rows t.now.sizes.columns t.now.sizes.denominator t.now.cells.now array.now)
        counts.old result counts.new }
{
    let numbering = Numbering::of(t);
    let given = numbering.number(array);
    match numbering.first_from(given + 1) {
        Some(x) => {
            numbering.write_array(x, counts);
            true
        }
        None => false,
    }
}

// What the search of the definition finds follows: of every accepted table, whatever its size, and every array.
pub fn claims()
    ensures { (r c d : ℕ) (g n : List ℕ) → table_refusal r c d g ≡ None → Follows r c d g n (next_rounding r c d g n) }
{}
