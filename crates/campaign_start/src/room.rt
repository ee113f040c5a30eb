// Opening a plan for a campaign: refusals 5 to 7.
ghost use Rattle.std.specs.Prelude.{◌≡◌, None, Some, MatchResult};
ghost use Rattle.records.specs.Record.{record_of};
ghost use Rattle.campaign_start.specs.Start.{start_refusal};

use opening::open::{OpenPlan, open_plan};
use refusals::Refusal;

// The plan if a start with these buffers is accepted, or the lowest refusal that applies. Count and rounds have no part in it.
pub fn open_for<'a>(plan: &'a [u8], bits: &[u8], tally: &[u64]) -> Result<OpenPlan<'a>, Refusal>
    ensures { let due = start_refusal plan.now (record_of 0 0 bits.now tally.now) in
        MatchResult result (λ p. (p.plan.bytes.now ≡ plan.now) × (due ≡ None)) (λ x. due ≡ Some x) }
{
    let p = open_plan(plan)?;
    let s = p.plan.sizes;
    if bits.len() < (s.denominator as usize).div_ceil(8) || tally.len() < s.rows * s.columns {
        return Err(Refusal::Buffer);
    }
    Ok(p)
}
