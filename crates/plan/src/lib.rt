// The plan of a table in stored form 1.
#![tactic(auto)]

ghost use Rattle.std.specs.Prelude.{◌≡◌, List, map, ℕ, None};
ghost use Rattle.table.specs.Check.{table_refusal};
ghost use Rattle.plan.specs.Call.{PlanAnswers, planned_number};
ghost use Rattle.plan.specs.Examples.{calls, planned, said};
ghost use Rattle.plan.specs.Promises.{Promises};

use crate::gather::gather;
use form::Sizes;
use form::layout::plan_length;
use refusals::Refusal;
use table::Table;
use table::check::{Accepted, accept};
use writing::write;

mod gather;

// How many counts the largest plan has: 170 arrays of 144 cells.
const COUNTS: usize = 24480;

// Plans an accepted table: the rounds run once, into a scratch of this function, before anything is written.
fn plan_table(t: &Accepted, plan: &mut [u8]) -> Result<u32, Refusal>
    ensures { PlanAnswers t.now.sizes.rows t.now.sizes.columns t.now.sizes.denominator t.now.cells.now plan.old result plan.new }
{
    let rows = t.sizes.rows;
    let columns = t.sizes.columns;
    let mut weights = [0u32; Table::MAX_ARRAYS as usize];
    let mut counts = [0u16; COUNTS];
    let arrays = gather(t, &mut weights, &mut counts);
    let length = plan_length(rows, columns, arrays);
    if plan.len() < length {
        return Err(Refusal::Buffer);
    }
    let s = Sizes {
        rows,
        columns,
        arrays,
        denominator: t.sizes.denominator as u32,
    };
    write(s, t.cells, &weights, &counts, plan);
    Ok(length as u32)
}

// Writes the stored plan of a table and returns its length, or the lowest refusal that applies.
pub fn plan(
    rows: u32,
    columns: u32,
    denominator: u32,
    cells: &[u32],
    plan: &mut [u8],
) -> Result<u32, Refusal>
    ensures { PlanAnswers rows columns denominator cells.now plan.old result plan.new }
{
    let t = accept(rows, columns, denominator, cells)?;
    plan_table(&t, plan)
}

// The number that an answer stands for: the length, which is 30 or more, or the refusal's.
// stays: a number, for the C interface
pub fn planned_number(r: Result<u32, Refusal>) -> u32
    ensures { result ≡ planned_number r }
{
    r.unwrap_or_else(u32::from)
}

// What the plan of every accepted table keeps; and the literal calls are as stated, with 7 beside each other refusal.
pub fn claims()
    ensures promises { (r c d : ℕ) (g : List ℕ) → table_refusal r c d g ≡ None → Promises r c d g }
    ensures calls { map planned calls ≡ map said calls }
{}
