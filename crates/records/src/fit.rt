// Whether a campaign record fits a plan: refusal 9.
ghost use Rattle.std.specs.Prelude.{◌≡◌, ◌^◌, ◌<◌, sum};
ghost use Rattle.form.specs.Form.{decode};
ghost use Rattle.records.specs.Record.{record_of, fits};
ghost use Rattle.records.specs.Clauses.{Numbered, taken_numbers, Fitted};

use crate::Record;
use crate::tally::tally_fits;
use bits::{bits_set, spare_clear};
use opening::open::OpenPlan;
use reading::LaidOut;

// How many numbers of each array are taken.
fn taken_numbers(plan: &LaidOut, bits: &[u8]) -> [u32; 170]
    requires { Numbered plan.now.bytes.now bits.now }
    ensures { result ≡ taken_numbers (decode plan.now.bytes.now).arrays bits.now }
{
    let mut taken = [0u32; 170];
    let mut at = 0;
    // stays: k is the number of the array that is asked for
    for k in 0..plan.sizes.arrays {
        let w = plan.weight(k) as usize;
        taken[k] = bits_set(bits, at, w);
        at += w;
    }
    taken
}

// How many numbers are taken, array by array added up.
fn all_taken(taken: &[u32]) -> u32
    requires { sum taken.now < 2 ^ 32 }
    ensures { result ≡ sum taken.now }
{
    taken.iter().sum()
}

// Whether the record fits the opened plan. The time is that of the D bits and of the counts of the K arrays.
pub fn fits(plan: &OpenPlan, record: Record, bits: &[u8], tally: &[u64]) -> bool
    requires { Fitted plan.now.plan.sizes bits.now tally.now }
    ensures { result ≡ fits (decode plan.now.plan.bytes.now) (record_of «record».taken «record».rounds bits.now tally.now) }
{
    let s = plan.plan.sizes;
    if !spare_clear(bits, s.denominator as usize) {
        return false;
    }
    let numbers = taken_numbers(&plan.plan, bits);
    all_taken(&numbers[..s.arrays]) == record.taken
        && record.within(s.denominator)
        && tally_fits(&plan.plan, record.rounds, &numbers, tally)
}
