// The C calls of a walk: each thin over the proved one, its answer as a number. A slice is a pointer and then its length in elements.
#![tactic(auto)]

ghost use Rattle.std.specs.Prelude.{◌≡◌, length};
ghost use Rattle.refusals.specs.Answer.{answer_number};
ghost use Rattle.refusals.specs.Due.{answer_of, after};
ghost use Rattle.base.specs.Buffers.{written};
ghost use Rattle.first_rounding.specs.First.{first_rounding};
ghost use Rattle.walk.specs.Call.{first_refusal, next_answer, next_left, step_number};

// Writes the first controlled rounding of a table of up to four by four: 0, or the refusal's number.
#[unsafe(no_mangle)]
pub extern "C" fn lufodimi_walk_first(
    rows: u32,
    columns: u32,
    denominator: u32,
    cells: &[u32],
    counts: &mut [u16],
) -> u32
    ensures number { result ≡ answer_number (answer_of (first_refusal rows columns denominator cells.now (length counts.old))) }
    ensures buffer { counts.new ≡ after (first_refusal rows columns denominator cells.now (length counts.old))
        (written (first_rounding rows columns denominator cells.now) counts.old) counts.old }
{
    let answer = walk::first(rows, columns, denominator, cells, counts);
    refusals::answer_number(answer)
}

// Writes the controlled rounding after the one handed in: 0; 255 where this was the last; or the refusal's number.
#[unsafe(no_mangle)]
pub extern "C" fn lufodimi_walk_next(
    rows: u32,
    columns: u32,
    denominator: u32,
    cells: &[u32],
    array: &[u16],
    counts: &mut [u16],
) -> u32
    ensures number { result ≡ step_number (next_answer rows columns denominator cells.now array.now (length counts.old)) }
    ensures buffer { counts.new ≡ next_left rows columns denominator cells.now array.now counts.old }
{
    let step = walk::next(rows, columns, denominator, cells, array, counts);
    walk::step_number(step)
}
