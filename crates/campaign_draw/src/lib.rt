// Drawing in a campaign: a number that is not yet taken, and its array. What every run of draws after a start is held to stands in `demands`.
#![tactic(auto)]

ghost use Rattle.std.specs.Prelude.{◌≡◌, map, ◌+◌, length, get_or, None, Some, MatchResult};
ghost use Rattle.base.specs.Lists.{tabulate};
ghost use Rattle.base.specs.Buffers.{written};
ghost use Rattle.records.specs.Record.{record_of};
ghost use Rattle.campaign_draw.specs.Draw.{campaign_refusal, ask, made, Draws};
ghost use Rattle.campaign_draw.specs.Clauses.{Addends};
ghost use Rattle.campaign_draw.specs.Examples.{outcome_of, draws};

use crate::round::close_round;
use bits::{bit, set_bit};
use campaign_start::room::open_for;
use drawing::write_array;
use opening::open::OpenPlan;
use records::fit::fits;
use records::{MAX_ROUNDS, Record};
use refusals::Refusal;

mod round;

// The plan if the draw is accepted, or the first refusal that applies. Nothing is written.
fn draw_opened<'a>(
    plan: &'a [u8],
    number: u32,
    record: Record,
    bits: &[u8],
    tally: &[u64],
    room: usize,
) -> Result<OpenPlan<'a>, Refusal>
    ensures { let due = campaign_refusal plan.now number (record_of «record».taken «record».rounds bits.now tally.now) room in
        MatchResult result (λ p. (p.plan.bytes.now ≡ plan.now) × (due ≡ None)) (λ x. due ≡ Some x) }
{
    let p = open_for(plan, bits, tally)?;
    let s = p.plan.sizes;
    if room < s.rows * s.columns {
        return Err(Refusal::Buffer);
    }
    if s.denominator <= number {
        return Err(Refusal::Number);
    }
    if !fits(&p, record, bits, tally) {
        return Err(Refusal::Record);
    }
    if MAX_ROUNDS <= record.rounds {
        return Err(Refusal::Rounds);
    }
    if bit(bits, number as usize) != 0 {
        return Err(Refusal::Taken);
    }
    Ok(p)
}

// Adds counts to the first numbers of the tally.
fn add_counts(counts: &[u16], tally: &mut [u64])
    requires { Addends counts.now tally.old }
    ensures { tally.new
        ≡ written (tabulate (length counts.now) (λ i. get_or tally.old i 0 + get_or counts.now i 0)) tally.old }
{
    for (i, n) in counts.iter().enumerate() {
        tally[i] += u64::from(*n);
    }
}

// Writes the array of a draw number and takes the number, or returns the first refusal that applies.
pub fn draw(
    plan: &[u8],
    number: u32,
    record: &mut Record,
    bits: &mut [u8],
    tally: &mut [u64],
    counts: &mut [u16],
) -> Result<(), Refusal>
    ensures { Draws (λ a. a)
        (made plan.now (record_of «record».old.taken «record».old.rounds bits.old tally.old) (ask number counts.old))
        result (record_of «record».new.taken «record».new.rounds bits.new tally.new) counts.new }
{
    let p = draw_opened(plan, number, *record, bits, tally, counts.len())?;
    let s = p.plan.sizes;
    let cells = s.rows * s.columns;
    write_array(&p, number, counts);
    add_counts(&counts[..cells], tally);
    set_bit(bits, number as usize);
    let mut next = *record;
    next.taken += 1;
    close_round(s.denominator, &mut next, bits);
    // last, and once: what is stored is never a count of all numbers
    record.taken = next.taken;
    record.rounds = next.rounds;
    Ok(())
}

// The literal cases are as stated: records of D 7, 8 and 9, buffers of just the needed length and of one less, the last draw of a round, of the first
// and of the thousandth, each way not to fit, each refusal, and each two that can apply at once.
pub fn claims()
    ensures { map outcome_of draws ≡ map (λ r. r.outcome) draws }
{}
