// All rounds of the plan of an accepted table.
ghost use Rattle.plan.specs.Clauses.{RoundsReady, AllGathered};

use grid::write::write_cells;
use planning::round::Remaining;
use table::check::Accepted;

// The rounds until no weight is left: each array's weight and counts, one after another, and how many there are.
pub fn gather(t: &Accepted, weights: &mut [u32], counts: &mut [u16]) -> usize
    requires { RoundsReady weights.old counts.old }
    ensures { AllGathered t.now.sizes.rows t.now.sizes.columns t.now.sizes.denominator t.now.cells.now result weights.new counts.new }
{
    let s = t.sizes;
    let mut left = Remaining::of(t);
    let mut k = 0;
    // stays: the rounds end where no weight is left; a `for` over the places for weights would return inside the loop and after it, which is no plainer
    while left.weight > 0 {
        let mut n = [0u64; 169];
        let x = left.one_round(&mut n);
        weights[k] = x as u32;
        write_cells(&n, s.rows, s.columns, counts, k * (s.rows * s.columns));
        k += 1;
    }
    k
}
