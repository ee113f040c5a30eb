// Writing a plan in stored form 1.
#![tactic(auto)]

ghost use Rattle.std.specs.Prelude.{◌≡◌, ◌+◌, ◌*◌, ◌≤◌, length};
ghost use Rattle.base.specs.Lists.{join_to};
ghost use Rattle.base.specs.Buffers.{written, put_at};
ghost use Rattle.form.specs.Form.{head, contents_entry, encode};
ghost use Rattle.form.specs.Clauses.{Bounded};
ghost use Rattle.writing.specs.Clauses.{buffered_plan, buffered_amount, buffered_entry, numbers, Listed, Writable};

use byte_numbers::write::{put1, put2, put4};
use form::Sizes;
use form::layout::body_at;

// Puts the head at the start.
fn head(s: Sizes, plan: &mut [u8])
    requires { Bounded s.rows s.columns s.arrays × (8 ≤ length plan.old) }
    ensures { plan.new ≡ put_at plan.old 0 (head s.rows s.columns s.arrays) }
{
    put2(1, 0, plan);
    put1(s.rows as u8, 2, plan);
    put1(s.columns as u8, 3, plan);
    put2(s.arrays as u16, 4, plan);
    put2(0, 6, plan);
}

// The number beside the offset in entry i of the contents.
fn amount(denominator: u32, weights: &[u32], i: usize) -> u32
    requires { i ≤ length weights.now }
    ensures { result ≡ buffered_amount denominator weights.now i }
{
    if i == 0 { denominator } else { weights[i - 1] }
}

// Puts an entry of the contents at a place.
fn contents_entry(amount: u32, offset: u32, at: usize, plan: &mut [u8])
    requires { at + 8 ≤ length plan.old }
    ensures { plan.new ≡ put_at plan.old at (contents_entry amount offset) }
{
    put4(amount, at, plan);
    put4(offset, at + 4, plan);
}

// Puts the contents after the head.
fn contents(s: Sizes, weights: &[u32], plan: &mut [u8])
    requires { Listed s weights.now plan.old }
    ensures { plan.new ≡ put_at plan.old 8 (join_to (s.arrays + 1) (buffered_entry s weights.now)) }
{
    for i in 0..s.arrays + 1 {
        contents_entry(
            amount(s.denominator, weights, i),
            body_at(s.rows, s.columns, s.arrays, i) as u32,
            8 + 8 * i,
            plan,
        );
    }
}

// Puts cells of the table from a place on.
fn cells_at(cells: &[u32], at: usize, plan: &mut [u8])
    requires { at + 4 * length cells.now ≤ length plan.old }
    ensures { plan.new ≡ put_at plan.old at (numbers 4 (length cells.now) cells.now) }
{
    for (i, x) in cells.iter().enumerate() {
        put4(*x, at + 4 * i, plan);
    }
}

// Puts counts of arrays from a place on.
// stays: one function for cells and counts takes a const width and a closure that gives the bytes of a number, and is longer than these two loops
fn counts_at(counts: &[u16], at: usize, plan: &mut [u8])
    requires { at + 2 * length counts.now ≤ length plan.old }
    ensures { plan.new ≡ put_at plan.old at (numbers 2 (length counts.now) counts.now) }
{
    for (i, x) in counts.iter().enumerate() {
        put2(*x, at + 2 * i, plan);
    }
}

// Writes a plan at the start of a buffer: its sizes, the table's cells, and the arrays by their weights and their counts, which stand one after another.
pub fn write(s: Sizes, cells: &[u32], weights: &[u32], counts: &[u16], plan: &mut [u8])
    requires { Writable s cells.now weights.now counts.now plan.old }
    ensures { plan.new
        ≡ written (encode (buffered_plan s cells.now weights.now counts.now)) plan.old }
{
    head(s, plan);
    contents(s, weights, plan);
    cells_at(cells, body_at(s.rows, s.columns, s.arrays, 0), plan);
    counts_at(
        &counts[..s.arrays * (s.rows * s.columns)],
        body_at(s.rows, s.columns, s.arrays, 1),
        plan,
    );
}
