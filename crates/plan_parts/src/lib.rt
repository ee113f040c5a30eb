// What a stored plan has: its sizes, its table and its arrays.
#![tactic(auto)]

ghost use Rattle.std.specs.Prelude.{◌≡◌, [], ◌∷◌, map, length};
ghost use Rattle.base.specs.Buffers.{written};
ghost use Rattle.refusals.specs.Due.{Answers};
ghost use Rattle.weighted_arrays.specs.Plan.{cell_count};
ghost use Rattle.form.specs.Form.{decode};
ghost use Rattle.plan_parts.specs.Sizes.{size_numbers};
ghost use Rattle.opening.specs.Open.{part_refusal};
ghost use Rattle.plan_parts.specs.Clauses.{SizesReady};
ghost use Rattle.plan_parts.specs.Examples.{size_cases, told_sizes, cell_cases, told_cells, said, array_cases, told_array, said_array};

use base::write::write_four;
use form::Sizes;
use opening::open::open_plan;
use refusals::Refusal;

pub mod array;

// Writes sizes as numbers.
fn write_sizes(s: Sizes, numbers: &mut [u32])
    requires { SizesReady s numbers.old }
    ensures { numbers.new ≡ written (s.rows ∷ s.columns ∷ s.arrays ∷ s.denominator ∷ []) numbers.old }
{
    write_four(
        s.rows as u32,
        s.columns as u32,
        s.arrays as u32,
        s.denominator,
        numbers,
    );
}

// Writes a plan's sizes (rows, columns, arrays, denominator), or returns the lowest refusal that applies.
pub fn sizes(plan: &[u8], numbers: &mut [u32]) -> Result<(), Refusal>
    ensures { Answers (part_refusal plan.now 4 (length numbers.old))
        (written (size_numbers plan.now) numbers.old) numbers.old result numbers.new }
{
    let opened = open_plan(plan)?;
    if numbers.len() < 4 {
        return Err(Refusal::Buffer);
    }
    write_sizes(opened.plan.sizes, numbers);
    Ok(())
}

// Writes the cells of a plan's table, or returns the lowest refusal that applies.
pub fn cells(plan: &[u8], cells: &mut [u32]) -> Result<(), Refusal>
    ensures { Answers (part_refusal plan.now (cell_count (decode plan.now)) (length cells.old))
        (written (decode plan.now).cells cells.old) cells.old result cells.new }
{
    let opened = open_plan(plan)?;
    let s = opened.plan.sizes;
    if cells.len() < s.rows * s.columns {
        return Err(Refusal::Buffer);
    }
    opened.plan.read_table(cells);
    Ok(())
}

// The literal cases are as stated: buffers of just the needed length, longer and one less, each refusal, and 7 beside each other.
pub fn claims()
    ensures sizes { map told_sizes size_cases ≡ map said size_cases }
    ensures cells { map told_cells cell_cases ≡ map said cell_cases }
    ensures arrays { map told_array array_cases ≡ map said_array array_cases }
{}
