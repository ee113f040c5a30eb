// For one cell and each cell before it: the products of their counts times the weights, added up.
ghost use Rattle.std.specs.Prelude.{length};
ghost use Rattle.weighted_arrays.specs.Plan.{cell_count};
ghost use Rattle.form.specs.Form.{decode};
ghost use Rattle.weighted_arrays.specs.Clauses.{SumsTo};
ghost use Rattle.covariances.specs.Clauses.{Kept, RowReady, factors};

use opening::open::OpenPlan;
use reading::LaidOut;
use weighted_arrays::add_weighted;

// Reads the counts of all arrays, one array after another, so that each is read once.
pub fn keep_counts(plan: &LaidOut, counts: &mut [[u16; 144]; 170])
    ensures { Kept (decode plan.now.bytes.now).arrays (cell_count (decode plan.now.bytes.now))
        (length (decode plan.now.bytes.now).arrays) counts.new }
{
    for (k, array) in counts[..plan.sizes.arrays].iter_mut().enumerate() {
        plan.read_array(k, array);
    }
}

// Adds up the products of the cell at place a and of each before it.
pub fn row_sums(plan: &OpenPlan, counts: &[[u16; 144]; 170], a: usize, sums: &mut [u64; 144])
    requires { RowReady plan.now.plan.bytes.now counts.now a sums.old }
    ensures { SumsTo (factors (decode plan.now.plan.bytes.now).arrays a) (decode plan.now.plan.bytes.now).arrays a
        (length (decode plan.now.plan.bytes.now).arrays) sums.new }
{
    for (k, array) in counts[..plan.plan.sizes.arrays].iter().enumerate() {
        let factor = plan.plan.weight(k) * u32::from(array[a]);
        add_weighted(factor, &array[..a], sums);
    }
}
