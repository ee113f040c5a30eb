// The three numerators of a plan that opens.
ghost use Rattle.base.specs.Clauses.{Widened};
ghost use Rattle.form.specs.Form.{decode};
ghost use Rattle.variances.specs.Variance.{rounding_variance};
ghost use Rattle.variances.specs.Clauses.{Measured, DenominatorWithin, SumReady, VariancesOf};

use crate::Numerators;
use covariances::pairs::extremes;
use opening::open::OpenPlan;
use table::whole::divide;

// The variance of a cell: f·(D - f), f its remainder by D.
fn cell_variance(d: u32, g: u32) -> u64
    requires { DenominatorWithin d }
    ensures { Widened 4294967296 (rounding_variance d g) result }
{
    let d = u64::from(d);
    let f = divide(u64::from(g), d).rest;
    f * (d - f)
}

// The variances of all cells, added up.
fn cell_variances(d: u32, cells: &[u32]) -> u64
    requires { SumReady d cells.now }
    ensures { VariancesOf d cells.now result }
{
    cells.iter().map(|g| cell_variance(d, *g)).sum()
}

// The three numerators of a plan that opens.
pub fn measure(plan: &OpenPlan) -> Numerators
    ensures { Measured (decode plan.now.plan.bytes.now) result }
{
    let s = plan.plan.sizes;
    let mut table = [0; 144];
    plan.plan.read_table(&mut table);
    let cells = &table[..s.rows * s.columns];
    let variances = cell_variances(s.denominator, cells);
    let e = extremes(plan, cells);
    Numerators {
        variances,
        smallest: e.low,
        largest: e.high,
    }
}
