// The C calls that take a stored plan but no record: each thin over the proved one, its answer as a number.
// A slice is a pointer and then its length in elements.
#![tactic(auto)]

ghost use Rattle.std.specs.Prelude.{◌≡◌, ◌++◌, length, drop};
ghost use Rattle.refusals.specs.Answer.{answer_number};
ghost use Rattle.refusals.specs.Due.{answer_of, after};
ghost use Rattle.base.specs.Buffers.{written};
ghost use Rattle.weighted_arrays.specs.Plan.{cell_count};
ghost use Rattle.form.specs.Form.{decode};
ghost use Rattle.opening.specs.Open.{open_answer, part_refusal};
ghost use Rattle.drawing.specs.Draw.{draw_refusal, drawn_array};
ghost use Rattle.plan_parts.specs.Sizes.{size_numbers};
ghost use Rattle.plan_parts.specs.Array.{buffers, array_refusal, array_into};
ghost use Rattle.variances.specs.Variance.{numerators};

// Opens a stored plan: 0, or the refusal's number.
#[unsafe(no_mangle)]
pub extern "C" fn lufodimi_open(plan: &[u8]) -> u32
    ensures { result ≡ answer_number (open_answer plan.now) }
{
    let opened = opening::open::open(plan);
    refusals::answer_number(opened)
}

// Writes the array that belongs to a draw number: 0, or the refusal's number.
#[unsafe(no_mangle)]
pub extern "C" fn lufodimi_draw(plan: &[u8], number: u32, counts: &mut [u16]) -> u32
    ensures number { result ≡ answer_number (answer_of (draw_refusal plan.now number (length counts.old))) }
    ensures buffer { counts.new ≡ after (draw_refusal plan.now number (length counts.old))
        (written (drawn_array plan.now number) counts.old) counts.old }
{
    let answer = drawing::draw(plan, number, counts);
    refusals::answer_number(answer)
}

// Writes a plan's sizes (rows, columns, arrays, denominator): 0, or the refusal's number.
#[unsafe(no_mangle)]
pub extern "C" fn lufodimi_sizes(plan: &[u8], sizes: &mut [u32]) -> u32
    ensures number { result ≡ answer_number (answer_of (part_refusal plan.now 4 (length sizes.old))) }
    ensures buffer { sizes.new ≡ after (part_refusal plan.now 4 (length sizes.old))
        (written (size_numbers plan.now) sizes.old) sizes.old }
{
    let told = plan_parts::sizes(plan, sizes);
    refusals::answer_number(told)
}

// Writes the cells of a plan's table: 0, or the refusal's number.
#[unsafe(no_mangle)]
pub extern "C" fn lufodimi_cells(plan: &[u8], cells: &mut [u32]) -> u32
    ensures number { result ≡ answer_number (answer_of (part_refusal plan.now (cell_count (decode plan.now)) (length cells.old))) }
    ensures buffer { cells.new ≡ after (part_refusal plan.now (cell_count (decode plan.now)) (length cells.old))
        (written (decode plan.now).cells cells.old) cells.old }
{
    let read = plan_parts::cells(plan, cells);
    refusals::answer_number(read)
}

// Writes the weight and the counts of an array, from 1 on, of a plan: 0, or the refusal's number.
#[unsafe(no_mangle)]
pub extern "C" fn lufodimi_array(
    plan: &[u8],
    array: u32,
    weight: &mut [u32],
    counts: &mut [u16],
) -> u32
    ensures number { result ≡ answer_number (answer_of (array_refusal plan.now array (length weight.old) (length counts.old))) }
    ensures buffers { buffers weight.new counts.new
        ≡ after (array_refusal plan.now array (length weight.old) (length counts.old))
        (array_into plan.now array (buffers weight.old counts.old)) (buffers weight.old counts.old) }
{
    let given = plan_parts::array::array(plan, array, weight, counts);
    refusals::answer_number(given)
}

// Writes the sum of all cell variances of a plan, the smallest and the largest covariance of two different cells, as numerators: 0, or the refusal's number.
#[unsafe(no_mangle)]
pub extern "C" fn lufodimi_variances(plan: &[u8], out: &mut [i64]) -> u32
    ensures number { result ≡ answer_number (answer_of (part_refusal plan.now 3 (length out.old))) }
    ensures buffer { out.new ≡ after (part_refusal plan.now 3 (length out.old))
        (numerators (decode plan.now) ++ drop 3 out.old) out.old }
{
    let measured = variances::call::variances(plan, out);
    refusals::answer_number(measured)
}
