// The call that writes a plan's numerators.
ghost use Rattle.std.specs.Prelude.{◌≡◌, ◌++◌, ◌*◌, ◌≤◌, ◌-ℤ◌, length, drop};
ghost use Rattle.std.proofs.Math.IntN.{sub_ℕ};
ghost use Rattle.std.specs.Int.{w64};
ghost use Rattle.std.proofs.Common.{SFits};
ghost use Rattle.refusals.specs.Due.{Answers};
ghost use Rattle.form.specs.Form.{decode};
ghost use Rattle.opening.specs.Open.{part_refusal};
ghost use Rattle.covariances.specs.Covariance.{lift};
ghost use Rattle.variances.specs.Variance.{numerators};
ghost use Rattle.variances.specs.Clauses.{numerators_of, WriteReady};

use crate::Numerators;
use crate::measure::measure;
use covariances::LIFT;
use opening::open::open_plan;
use refusals::Refusal;

// A covariance that is lifted no more.
fn lowered(x: u64) -> i64
    requires { x ≤ 2 * lift }
    ensures { result ≡ sub_ℕ x lift }
{
    x as i64 - LIFT as i64
}

// Writes the three numerators.
fn write_numerators(n: Numerators, out: &mut [i64])
    requires { WriteReady n out.old }
    ensures { out.new ≡ numerators_of n ++ drop 3 out.old }
{
    out[..3].copy_from_slice(&[n.variances as i64, lowered(n.smallest), lowered(n.largest)]);
}

// Writes the sum of all cell variances, the smallest and the largest covariance of two different cells, or returns the lowest refusal that applies.
pub fn variances(plan: &[u8], out: &mut [i64]) -> Result<(), Refusal>
    ensures { Answers (part_refusal plan.now 3 (length out.old))
        (numerators (decode plan.now) ++ drop 3 out.old) out.old result out.new }
{
    let opened = open_plan(plan)?;
    if out.len() < 3 {
        return Err(Refusal::Buffer);
    }
    write_numerators(measure(&opened), out);
    Ok(())
}
