// The two C calls of a campaign, and the struct that they change in place: each thin over the proved one, its answer as a number.
// A slice is a pointer and then its length in elements.
#![tactic(auto)]

ghost use Rattle.refusals.specs.Answer.{answer_number};
ghost use Rattle.records.specs.Record.{record_of};
ghost use Rattle.campaign_start.specs.Start.{started, Starts};
ghost use Rattle.campaign_draw.specs.Draw.{ask, made, Draws};

use records::Record;

// Starts a campaign: 0, or the refusal's number.
#[unsafe(no_mangle)]
pub extern "C" fn lufodimi_start(
    plan: &[u8],
    record: &mut Record,
    bits: &mut [u8],
    tally: &mut [u64],
) -> u32
    ensures { Starts answer_number
        (started plan.now (record_of «record».old.taken «record».old.rounds bits.old tally.old))
        result (record_of «record».new.taken «record».new.rounds bits.new tally.new) }
{
    let started = campaign_start::start(plan, record, bits, tally);
    refusals::answer_number(started)
}

// Takes a number in a campaign and writes its array: 0, or the refusal's number.
#[unsafe(no_mangle)]
pub extern "C" fn lufodimi_campaign_draw(
    plan: &[u8],
    number: u32,
    record: &mut Record,
    bits: &mut [u8],
    tally: &mut [u64],
    counts: &mut [u16],
) -> u32
    ensures { Draws answer_number
        (made plan.now (record_of «record».old.taken «record».old.rounds bits.old tally.old)
        (ask number counts.old))
        result (record_of «record».new.taken «record».new.rounds bits.new tally.new) counts.new }
{
    let drawn = campaign_draw::draw(plan, number, record, bits, tally, counts);
    refusals::answer_number(drawn)
}
