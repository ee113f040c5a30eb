// The end of a round.
ghost use Rattle.campaign_draw.specs.Clauses.{Closable, Closes};

use records::Record;

// What an accepted draw leaves, with its number counted and its bit set: where no number is free any more, a round is added, all numbers are freed and the
// count is 0.
pub fn close_round(denominator: u32, record: &mut Record, bits: &mut [u8])
    requires { Closable denominator «record».old.rounds bits.old }
    ensures { Closes denominator «record».old bits.old «record».new bits.new }
{
    if record.taken != denominator {
        return;
    }
    bits[..(denominator as usize).div_ceil(8)].fill(0);
    record.taken = 0;
    record.rounds += 1;
}
