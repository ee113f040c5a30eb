// The C calls that take a table: each thin over the proved one, its answer as a number. A slice is a pointer and then its length in elements.
#![tactic(auto)]

ghost use Rattle.std.specs.Prelude.{◌≡◌, length};
ghost use Rattle.refusals.specs.Answer.{answer_number};
ghost use Rattle.refusals.specs.Due.{answer_of, after};
ghost use Rattle.base.specs.Buffers.{written};
ghost use Rattle.first_rounding.specs.First.{first_rounding};
ghost use Rattle.rounding.specs.Call.{round_refusal};
ghost use Rattle.corrections.specs.Rounding as corrections;
ghost use Rattle.corrections.specs.Call as corrections-call;
ghost use Rattle.plan.specs.Call.{plan_bytes, plan_refusal, plan_answer, planned_number, Apart};
ghost use Rattle.reasons.specs.Call.{reason_answer};
ghost use Rattle.reason_numbers.specs.Numbers.{reason_numbers, reply_refusal};
ghost use Rattle.pool.specs.Pool.{pool_refusal, lent, pooled_into};

// Writes the first controlled rounding of a table: 0, or the refusal's number.
#[unsafe(no_mangle)]
pub extern "C" fn lufodimi_round(
    rows: u32,
    columns: u32,
    denominator: u32,
    cells: &[u32],
    counts: &mut [u16],
) -> u32
    ensures number { result ≡ answer_number (answer_of (round_refusal rows columns denominator cells.now (length counts.old))) }
    ensures buffer { counts.new ≡ after (round_refusal rows columns denominator cells.now (length counts.old))
        (written (first_rounding rows columns denominator cells.now) counts.old) counts.old }
{
    let answer = rounding::round(rows, columns, denominator, cells, counts);
    refusals::answer_number(answer)
}

// Writes the first controlled rounding of a table of corrections, whose cells may be below zero: 0, or the refusal's number.
#[unsafe(no_mangle)]
pub extern "C" fn lufodimi_round_signed(
    rows: u32,
    columns: u32,
    denominator: u32,
    cells: &[i32],
    counts: &mut [i16],
) -> u32
    ensures number { result ≡ answer_number (answer_of (corrections-call.round_refusal rows columns denominator cells.now (length counts.old))) }
    ensures buffer { counts.new ≡ after (corrections-call.round_refusal rows columns denominator cells.now (length counts.old))
        (written (corrections.first_rounding rows columns denominator cells.now) counts.old) counts.old }
{
    let answer = corrections::round(rows, columns, denominator, cells, counts);
    refusals::answer_number(answer)
}

// Writes the stored plan of a table: its length, which is 30 or more, or the refusal's number, which is below 30.
#[unsafe(no_mangle)]
pub extern "C" fn lufodimi_plan(
    rows: u32,
    columns: u32,
    denominator: u32,
    cells: &[u32],
    buffer: &mut [u8],
) -> u32
    ensures number { result ≡ planned_number (plan_answer rows columns denominator cells.now (length buffer.old)) }
    ensures buffer { buffer.new ≡ after (plan_refusal rows columns denominator cells.now (length buffer.old))
        (written (plan_bytes rows columns denominator cells.now) buffer.old) buffer.old }
    ensures apart { Apart (plan_answer rows columns denominator cells.now (length buffer.old)) }
{
    let planned = plan::plan(rows, columns, denominator, cells, buffer);
    plan::planned_number(planned)
}

// Writes which entry set the weight of an array, from 1 on, of a table's plan, as four numbers: 0, or the refusal's number.
#[unsafe(no_mangle)]
pub extern "C" fn lufodimi_reason(
    rows: u32,
    columns: u32,
    denominator: u32,
    cells: &[u32],
    array: u32,
    reply: &mut [u32],
) -> u32
    ensures number { result ≡ answer_number (answer_of (reply_refusal rows columns denominator cells.now array (length reply.old))) }
    ensures buffer { reply.new ≡ after (reply_refusal rows columns denominator cells.now array (length reply.old))
        (written (reason_numbers (reason_answer rows columns denominator cells.now array)) reply.old) reply.old }
{
    let explained = reason_numbers::write_reason(rows, columns, denominator, cells, array, reply);
    refusals::answer_number(explained)
}

// Writes the pool of two tables, the first over d and the second over e: 0, or the refusal's number.
#[unsafe(no_mangle)]
pub extern "C" fn lufodimi_pool(
    rows: u32,
    columns: u32,
    d: u32,
    first: &[u32],
    e: u32,
    second: &[u32],
    denominator: &mut [u32],
    cells: &mut [u32],
) -> u32
    ensures number { result ≡ answer_number (answer_of (pool_refusal rows columns d first.now e second.now
        (length denominator.old) (length cells.old))) }
    ensures buffers { lent denominator.new cells.new ≡ after (pool_refusal rows columns d first.now e second.now
        (length denominator.old) (length cells.old))
        (pooled_into d first.now e second.now (lent denominator.old cells.old))
        (lent denominator.old cells.old) }
{
    let pooled = pool::pool(rows, columns, d, first, e, second, denominator, cells);
    refusals::answer_number(pooled)
}
