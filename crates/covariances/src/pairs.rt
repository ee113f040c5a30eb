// The smallest and the largest covariance of two different cells, lifted.
ghost use Rattle.std.specs.Prelude.{◌≡◌};
ghost use Rattle.base.specs.Lists.{tabulate};
ghost use Rattle.weighted_arrays.specs.Plan.{cell_count};
ghost use Rattle.form.specs.Form.{decode};
ghost use Rattle.covariances.specs.Clauses.{lifted, Liftable, lifted_row, ExtremesReady, ExtremesOf, lifted_pair, lifted_pairs, RowsReady, RowAt, widest, Extremal};

use crate::sums::{keep_counts, row_sums};
use crate::{Extremes, LIFT};
use opening::open::OpenPlan;

// A covariance, lifted: D times the weighted products, minus the product of the two cells.
fn lifted(d: u64, s: u64, x: u32, y: u32) -> u64
    requires { Liftable d s x y }
    ensures { result ≡ lifted d s x y }
{
    d * s + LIFT - u64::from(x) * u64::from(y)
}

// The smallest and the largest so far, and of the cell at place a with each before it.
fn row_extremes(d: u64, cells: &[u32], a: usize, sums: &[u64; 144], mut e: Extremes) -> Extremes
    requires { ExtremesReady d cells.now a sums.now }
    ensures { ExtremesOf e (tabulate a (lifted_row d cells.now a sums.now)) result }
{
    for (products, cell) in sums[..a].iter().zip(&cells[..a]) {
        e = e.with(lifted(d, *products, cells[a], *cell));
    }
    e
}

// The same, with the weighted products added up from the plan.
fn pairs_of(
    plan: &OpenPlan,
    cells: &[u32],
    counts: &[[u16; 144]; 170],
    a: usize,
    e: Extremes,
) -> Extremes
    requires { RowAt plan.now.plan.bytes.now cells.now counts.now a }
    ensures { ExtremesOf e (tabulate a (lifted_pair (decode plan.now.plan.bytes.now) a)) result }
{
    let mut sums = [0u64; 144];
    row_sums(plan, counts, a, &mut sums);
    row_extremes(u64::from(plan.plan.sizes.denominator), cells, a, &sums, e)
}

// The smallest and the largest of all pairs. It begins with what no pair is above and what none is below.
fn all_pairs(plan: &OpenPlan, cells: &[u32], counts: &[[u16; 144]; 170]) -> Extremes
    requires { RowsReady plan.now.plan.bytes.now cells.now counts.now }
    ensures { ExtremesOf widest (lifted_pairs (decode plan.now.plan.bytes.now) (cell_count (decode plan.now.plan.bytes.now))) result }
{
    let mut e = Extremes {
        low: 2 * LIFT,
        high: 0,
    };
    // stays: a is the place that is passed on
    for a in 0..cells.len() {
        e = pairs_of(plan, cells, counts, a, e);
    }
    e
}

// The smallest and the largest covariance; of one cell there is no pair, and both are 0.
pub fn extremes(plan: &OpenPlan, cells: &[u32]) -> Extremes
    requires { cells.now ≡ (decode plan.now.plan.bytes.now).cells }
    ensures { Extremal (decode plan.now.plan.bytes.now) result }
{
    if cells.len() < 2 {
        return Extremes {
            low: LIFT,
            high: LIFT,
        };
    }
    let mut counts = [[0; 144]; 170];
    keep_counts(&plan.plan, &mut counts);
    all_pairs(plan, cells, &counts)
}
