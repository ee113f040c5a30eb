// Starting a campaign.
#![tactic(auto)]

ghost use Rattle.std.specs.Prelude.{◌≡◌, map};
ghost use Rattle.records.specs.Record.{record_of};
ghost use Rattle.campaign_start.specs.Start.{started, Starts};
ghost use Rattle.campaign_start.specs.Examples.{outcome_of, starts};

use crate::room::open_for;
use records::Record;
use refusals::Refusal;

pub mod room;

// Clears the record, or returns the lowest refusal that applies.
pub fn start(
    plan: &[u8],
    record: &mut Record,
    bits: &mut [u8],
    tally: &mut [u64],
) -> Result<(), Refusal>
    ensures { Starts (λ a. a) (started plan.now (record_of «record».old.taken «record».old.rounds bits.old tally.old))
        result (record_of «record».new.taken «record».new.rounds bits.new tally.new) }
{
    let s = open_for(plan, bits, tally)?.plan.sizes;
    let cells = s.rows * s.columns;
    bits[..(s.denominator as usize).div_ceil(8)].fill(0);
    tally[..cells].fill(0);
    // one by one, so that the bytes of a record in C that belong to neither stay
    record.taken = 0;
    record.rounds = 0;
    Ok(())
}

// The literal cases are as stated: records of D 7, 8 and 9, buffers of just the needed length and of one less, each refusal, and each two at once.
pub fn claims()
    ensures { map outcome_of starts ≡ map (λ r. r.outcome) starts }
{}
