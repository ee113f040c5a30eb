// An array of a stored plan, by its number.
ghost use Rattle.std.specs.Prelude.{length};
ghost use Rattle.refusals.specs.Due.{Answers};
ghost use Rattle.plan_parts.specs.Array.{buffers, array_refusal, array_into};

use opening::open::open_plan;
use refusals::Refusal;

// Writes the weight and the counts of array `number`, from 1 on, or returns the first refusal that applies.
pub fn array(
    plan: &[u8],
    number: u32,
    weights: &mut [u32],
    counts: &mut [u16],
) -> Result<(), Refusal>
    ensures { Answers (array_refusal plan.now number (length weights.old) (length counts.old))
        (array_into plan.now number (buffers weights.old counts.old))
        (buffers weights.old counts.old) result (buffers weights.new counts.new) }
{
    let opened = open_plan(plan)?;
    let s = opened.plan.sizes;
    let k = number as usize;
    if !(1..=s.arrays).contains(&k) {
        return Err(Refusal::Array);
    }
    if weights.len() < 1 {
        return Err(Refusal::Buffer);
    }
    if counts.len() < s.rows * s.columns {
        return Err(Refusal::Buffer);
    }
    weights[0] = opened.plan.weight(k - 1);
    opened.plan.read_array(k - 1, counts);
    Ok(())
}
