// What the tally of a campaign record has to be.
ghost use Rattle.std.specs.Prelude.{◌≡◌, ◌*◌, ◌≤◌, length};
ghost use Rattle.weighted_arrays.specs.Plan.{array_at};
ghost use Rattle.form.specs.Form.{decode};
ghost use Rattle.weighted_arrays.specs.Clauses.{Increased};
ghost use Rattle.records.specs.Clauses.{ArrayAddable, ArraysAdded, Compared, tally_met, tally_fits};

use reading::LaidOut;
use weighted_arrays::add_weighted;

// Adds array k, counted from 0, times a factor to some sums.
fn add_array(plan: &LaidOut, k: usize, factor: u32, sums: &mut [u64; 144])
    requires { ArrayAddable plan.now.sizes plan.now.bytes.now k sums.old }
    ensures { Increased factor (array_at (decode plan.now.bytes.now).arrays k).counts sums.old sums.new }
{
    let cells = plan.sizes.rows * plan.sizes.columns;
    let mut counts = [0u16; 144];
    plan.read_array(k, &mut counts);
    add_weighted(factor, &counts[..cells], sums);
}

// What this round adds to the tally: for each cell the counts of all arrays, each times how many of its numbers are taken, added up.
fn tally_of(plan: &LaidOut, taken: &[u32; 170]) -> [u64; 144]
    ensures { ArraysAdded plan.now.bytes.now taken.now result }
{
    let mut sums = [0u64; 144];
    for (k, factor) in taken[..plan.sizes.arrays].iter().enumerate() {
        add_array(plan, k, *factor, &mut sums);
    }
    sums
}

// Whether each number of the tally is rounds times its cell plus its sum.
fn tally_met(rounds: u16, cells: &[u32; 144], sums: &[u64; 144], tally: &[u64]) -> bool
    requires { Compared cells.now sums.now tally.now }
    ensures { result ≡ tally_met rounds cells.now sums.now tally.now }
{
    let times = u64::from(rounds);
    tally
        .iter()
        .zip(cells)
        .zip(sums)
        .all(|((n, cell), sum)| times * u64::from(*cell) + *sum == *n)
}

// Whether the tally is rounds times the table plus the arrays of the numbers taken.
pub fn tally_fits(plan: &LaidOut, rounds: u16, taken: &[u32; 170], tally: &[u64]) -> bool
    requires { plan.now.sizes.rows * plan.now.sizes.columns ≤ length tally.now }
    ensures { result ≡ tally_fits rounds (decode plan.now.bytes.now) taken.now tally.now }
{
    let sums = tally_of(plan, taken);
    let mut table = [0u32; 144];
    plan.read_table(&mut table);
    let cells = plan.sizes.rows * plan.sizes.columns;
    tally_met(rounds, &table, &sums, &tally[..cells])
}
