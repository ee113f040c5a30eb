// How many bytes a plan has, by its first eight.
ghost use Rattle.variance_text.specs.Read.{PlanLength};

use form::layout::{length_of, start_right};

// The length of the plan that begins with these bytes, the first eight or all that are left; 8 if they are no head of a plan.
pub fn plan_length(head: &[u8]) -> usize
    ensures { PlanLength head.now result }
{
    if head.len() < 8 || !start_right(head) {
        return 8;
    }
    length_of(head)
}
