// The two calls of a walk through all controlled roundings of a small table: the first of them, and the one after a given one.
#![tactic(auto)]

ghost use Rattle.std.specs.Prelude.{◌≡◌, map, length, Ok, Err, MatchResult};
ghost use Rattle.base.specs.Buffers.{written};
ghost use Rattle.refusals.specs.Due.{Answers};
ghost use Rattle.first_rounding.specs.First.{first_rounding};
ghost use Rattle.walk.specs.Call.{max_side, walk_within, first_refusal, next_answer, next_left, step_number};
ghost use Rattle.walk.specs.Clauses.{sides_check, walk_check};
ghost use Rattle.walk.specs.Examples.{firsts, first_says, steps, step_says, said_first, said_step};

use is_rounding::is_rounding;
use next_rounding::write_next;
use refusals::Refusal;
use rounding::round;
use table::check::{Accepted, accept, size_within};

// the most rows, and the most columns, of a table for a walk
pub const MAX_SIDE: u32 = 4;

// What an accepted second call did: it wrote the next array, or the array handed in was the last.
#[derive(Clone, Copy, Debug, PartialEq, Eq)]
pub enum Step {
    Next,
    Last,
}

// Whether rows and columns are few enough: else 15.
fn walk_within(rows: u32, columns: u32) -> bool
    ensures { result ≡ walk_within rows columns }
{
    rows <= MAX_SIDE && columns <= MAX_SIDE
}

// The first of 1 and 15 that applies.
#[tactic(auto, unfolding(crate::specs::Clauses::sides_check, refusals::specs::Due::due, refusals::specs::Due::answer_of))]
fn check_sides(rows: u32, columns: u32) -> Result<(), Refusal>
    ensures { result ≡ sides_check rows columns }
{
    if !size_within(rows, columns) {
        return Err(Refusal::Size);
    }
    if !walk_within(rows, columns) {
        return Err(Refusal::WalkSize);
    }
    Ok(())
}

// The table of these numbers, or the first refusal that applies.
fn check_small<'a>(
    rows: u32,
    columns: u32,
    denominator: u32,
    cells: &'a [u32],
) -> Result<Accepted<'a>, Refusal>
    ensures { MatchResult result
        (λ t. (t.cells.now ≡ cells.now) × (walk_check rows columns denominator cells.now ≡ Ok t.sizes))
        (λ x. walk_check rows columns denominator cells.now ≡ Err x) }
{
    check_sides(rows, columns)?;
    accept(rows, columns, denominator, cells)
}

// Writes the first controlled rounding of a table, or returns the first refusal that applies.
pub fn first(
    rows: u32,
    columns: u32,
    denominator: u32,
    cells: &[u32],
    counts: &mut [u16],
) -> Result<(), Refusal>
    ensures { Answers (first_refusal rows columns denominator cells.now (length counts.old))
        (written (first_rounding rows columns denominator cells.now) counts.old) counts.old result counts.new }
{
    check_sides(rows, columns)?;
    round(rows, columns, denominator, cells, counts)
}

// Writes the controlled rounding after the one handed in, says that this was the last, or returns the first refusal that applies.
pub fn next(
    rows: u32,
    columns: u32,
    denominator: u32,
    cells: &[u32],
    array: &[u16],
    counts: &mut [u16],
) -> Result<Step, Refusal>
    ensures answer { result ≡ next_answer rows columns denominator cells.now array.now (length counts.old) }
    ensures buffer { counts.new ≡ next_left rows columns denominator cells.now array.now counts.old }
{
    let t = check_small(rows, columns, denominator, cells)?;
    if !is_rounding(&t, array) {
        return Err(Refusal::NotRounding);
    }
    if counts.len() < t.cells.len() {
        return Err(Refusal::Buffer);
    }
    if write_next(&t, array, counts) {
        return Ok(Step::Next);
    }
    Ok(Step::Last)
}

// The number of an answer of the second call.
// stays: a number, for the C interface
pub fn step_number(s: Result<Step, Refusal>) -> u32
    ensures { result ≡ step_number s }
{
    match s {
        Ok(Step::Next) => 0,
        Ok(Step::Last) => 255,
        Err(x) => u32::from(x),
    }
}

// The constant is the bound of the definition; and the literal calls are as stated, among them a walk.
pub fn claims()
    ensures side { MAX_SIDE ≡ max_side }
    ensures firsts { map first_says firsts ≡ map said_first firsts }
    ensures steps { map step_says steps ≡ map said_step steps }
{}
