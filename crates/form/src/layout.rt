// The layout of a stored plan: refusal 5.
ghost use Rattle.std.specs.Prelude.{◌≡◌, true, ◌+◌, ◌*◌, ◌≤◌, length};
ghost use Rattle.form.specs.Form.{body_at, plan_length, length_of, amount_of, offset_of, sizes_of, start_right, head_right, laid_out};
ghost use Rattle.form.specs.Clauses.{Bounded, Contents, offsets_right};

use crate::Sizes;
use byte_numbers::read::{four, one, two};
use table::Table;
use table::check::up_to;

// The sizes that the head says.
pub fn sizes(plan: &[u8]) -> Sizes
    requires { 16 ≤ length plan.now }
    ensures { result ≡ sizes_of plan.now }
{
    Sizes {
        rows: usize::from(one(plan, 2)),
        columns: usize::from(one(plan, 3)),
        arrays: usize::from(two(plan, 4)),
        denominator: four(plan, 8),
    }
}

// The first number of entry k of the contents: the denominator, or the weight of array k.
pub fn amount(plan: &[u8], k: usize) -> u32
    requires { 16 + 8 * k ≤ length plan.now }
    ensures { result ≡ amount_of plan.now k }
{
    four(plan, 8 + 8 * k)
}

// The second number of entry k of the contents: where its body begins.
pub fn offset(plan: &[u8], k: usize) -> usize
    requires { 16 + 8 * k ≤ length plan.now }
    ensures { result ≡ offset_of plan.now k }
{
    four(plan, 12 + 8 * k) as usize
}

// Where body i begins: 0 is the table's, i is array i's, and the one after the last is the end of the plan.
// stays: rows, columns and arrays, and no Sizes, since `length_of` reads them from eight bytes, which hold no denominator
pub fn body_at(rows: usize, columns: usize, arrays: usize, i: usize) -> usize
    requires { Bounded rows columns arrays × (i ≤ arrays + 1) }
    ensures { result ≡ body_at rows columns arrays i }
{
    let table = 8 + 8 * (arrays + 1);
    if i == 0 {
        return table;
    }
    let cells = rows * columns;
    table + 4 * cells + (i - 1) * (2 * cells)
}

// The length of a plan of these sizes.
pub fn plan_length(rows: usize, columns: usize, arrays: usize) -> usize
    requires { Bounded rows columns arrays }
    ensures { result ≡ plan_length rows columns arrays }
{
    body_at(rows, columns, arrays, arrays + 1)
}

// Whether form, zero field, rows, columns and arrays are right, which the first eight bytes say.
pub fn start_right(plan: &[u8]) -> bool
    requires { 8 ≤ length plan.now }
    ensures { result ≡ start_right plan.now }
{
    two(plan, 0) == 1
        && two(plan, 6) == 0
        && up_to(Table::MAX_ROWS, u32::from(one(plan, 2)))
        && up_to(Table::MAX_COLUMNS, u32::from(one(plan, 3)))
        && up_to(Table::MAX_ARRAYS, u32::from(two(plan, 4)))
}

// The length that these eight bytes say.
pub fn length_of(plan: &[u8]) -> usize
    requires { (8 ≤ length plan.now) × (start_right plan.now ≡ true) }
    ensures { result ≡ length_of plan.now }
{
    plan_length(
        usize::from(one(plan, 2)),
        usize::from(one(plan, 3)),
        usize::from(two(plan, 4)),
    )
}

// Whether the denominator is right besides.
fn head_right(plan: &[u8]) -> bool
    requires { 16 ≤ length plan.now }
    ensures { result ≡ head_right plan.now }
{
    start_right(plan) && up_to(Table::MAX_DENOMINATOR, four(plan, 8))
}

// Whether each entry of the contents points to its body.
// stays: bytes with sizes, since this tests what a `LaidOut` says
fn offsets_right(plan: &[u8], s: Sizes) -> bool
    requires { Contents s.rows s.columns s.arrays plan.now }
    ensures { result ≡ offsets_right plan.now s.rows s.columns s.arrays }
{
    (0..s.arrays + 1).all(|i| offset(plan, i) == body_at(s.rows, s.columns, s.arrays, i))
}

// Whether the bytes are laid out as form 1 says.
pub fn laid_out(plan: &[u8]) -> bool
    ensures { result ≡ laid_out plan.now }
{
    if plan.len() < 16 {
        return false;
    }
    if !head_right(plan) {
        return false;
    }
    let s = sizes(plan);
    plan.len() == plan_length(s.rows, s.columns, s.arrays) && offsets_right(plan, s)
}
