// The contents of a plan that is laid out: refusal 6.
ghost use Rattle.std.specs.Prelude.{◌≡◌};
ghost use Rattle.form.specs.Form.{decode};
ghost use Rattle.opening.specs.Open.{consistent};
ghost use Rattle.opening.specs.Clauses.{weights_right, arrays_right, ArraysTo, ArrayTo, ArrayTested, ArraysTested, TableOf};

use is_rounding::EntryBounds;
use reading::LaidOut;
use table::check::cells_within;
use weighted_arrays::{add_weighted, cells_met};

// Whether each weight is at least 1 and they add up to the denominator.
fn weights_right(plan: &LaidOut) -> bool
    ensures { result ≡ weights_right (decode plan.now.bytes.now) }
{
    let mut sum: u64 = 0;
    for k in 0..plan.sizes.arrays {
        let w = plan.weight(k);
        if w < 1 {
            return false;
        }
        sum += u64::from(w);
    }
    sum == u64::from(plan.sizes.denominator)
}

// Whether array k, counted from 0, is held to the table's entries; its counts times its weight are added to the sums.
fn array_held(plan: &LaidOut, k: usize, bounds: &EntryBounds, sums: &mut [u64; 144]) -> bool
    requires { ArrayTo plan.now.sizes plan.now.bytes.now bounds.now.low bounds.now.high k sums.old }
    ensures { ArrayTested plan.now.bytes.now k result sums.new }
{
    let s = plan.sizes;
    let cells = s.rows * s.columns;
    let mut counts = [0u16; 144];
    plan.read_array(k, &mut counts);
    add_weighted(plan.weight(k), &counts[..cells], sums);
    bounds.hold(&counts[..cells], s.rows, s.columns)
}

// Whether each array is held to the table's entries, and if so the counts of all arrays times their weights.
fn arrays_held(plan: &LaidOut, bounds: &EntryBounds, sums: &mut [u64; 144]) -> bool
    requires { ArraysTo plan.now.sizes plan.now.bytes.now bounds.now.low bounds.now.high 0 sums.old }
    ensures { ArraysTested plan.now.bytes.now result sums.new }
{
    for k in 0..plan.sizes.arrays {
        if !array_held(plan, k, bounds, sums) {
            return false;
        }
    }
    true
}

// Whether each array is held to the table's entries, and for each cell the counts times the weights add up to it.
fn arrays_right(plan: &LaidOut, cells: &[u32]) -> bool
    requires { TableOf plan.now.sizes plan.now.bytes.now cells.now }
    ensures { result ≡ arrays_right (decode plan.now.bytes.now) }
{
    let s = plan.sizes;
    let mut bounds = EntryBounds {
        low: [0; 169],
        high: [0; 169],
    };
    bounds.fill(cells, s.rows, s.columns, u64::from(s.denominator));
    let mut sums = [0u64; 144];
    arrays_held(plan, &bounds, &mut sums) && cells_met(cells, &sums)
}

// Whether a plan that is laid out meets the other conditions.
pub fn consistent(plan: &LaidOut) -> bool
    ensures { result ≡ consistent (decode plan.now.bytes.now) }
{
    let s = plan.sizes;
    let mut room = [0u32; 144];
    plan.read_table(&mut room);
    let cells = &room[..s.rows * s.columns];
    cells_within(s.denominator, cells) && weights_right(plan) && arrays_right(plan, cells)
}
