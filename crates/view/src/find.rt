// What stands at a place of any bytes, if it stands there: for callers that do not know that a plan is laid out.
ghost use Rattle.std.specs.Prelude.{◌≡◌};
ghost use Rattle.view.specs.Find.{has_entry, found_weight, found_count};

use byte_numbers::read::two;
use form::layout::{amount, offset};
use table::Table;

// Whether array k, from 1 on, has its entry of the contents among the bytes.
fn has_entry(plan: &[u8], k: usize) -> bool
    ensures { result ≡ has_entry plan.now k }
{
    k <= Table::MAX_ARRAYS as usize && 16 + 8 * k <= plan.len()
}

// The weight beside array k's offset, from 1 on.
pub fn find_weight(plan: &[u8], k: usize) -> Option<u32>
    ensures { result ≡ found_weight plan.now k }
{
    if !has_entry(plan, k) {
        return None;
    }
    Some(amount(plan, k))
}

// Count i, from 0 on, in the body that array k's offset, from 1 on, points to.
pub fn find_count(plan: &[u8], k: usize, i: usize) -> Option<u32>
    ensures { result ≡ found_count plan.now k i }
{
    if !has_entry(plan, k) {
        return None;
    }
    if Table::MAX_CELLS as usize <= i {
        return None;
    }
    let body = plan.get(offset(plan, k)..)?;
    if body.len() < 2 * i + 2 {
        return None;
    }
    Some(u32::from(two(body, 2 * i)))
}
