// Opening a plan: refusals 5 and 6.
ghost use Rattle.std.specs.Prelude.{◌≡◌, Ok, Err, MatchResult};
ghost use Rattle.opening.specs.Open.{open_answer};

use crate::content::consistent;
use form::Sizes;
use reading::LaidOut;
use refusals::Refusal;

// A plan that opens.
#[derive(Clone, Copy)]
pub struct OpenPlan<'a> {
    pub plan: LaidOut<'a>,
    pub ghost opens: { open_answer plan.bytes.now ≡ Ok plan.sizes },
}

// The plan that the bytes hold, or the lowest refusal that applies.
pub fn open_plan<'a>(plan: &'a [u8]) -> Result<OpenPlan<'a>, Refusal>
    ensures { MatchResult result (λ p. p.plan.bytes.now ≡ plan.now) (λ e. open_answer plan.now ≡ Err e) }
{
    let Some(laid_out) = LaidOut::new(plan) else {
        return Err(Refusal::Layout);
    };
    if !consistent(&laid_out) {
        return Err(Refusal::Content);
    }
    Ok(OpenPlan { plan: laid_out })
}

// The sizes of the plan that the bytes hold, or the lowest refusal that applies.
pub fn open(plan: &[u8]) -> Result<Sizes, Refusal>
    ensures { result ≡ open_answer plan.now }
{
    open_plan(plan).map(|p| p.plan.sizes)
}
