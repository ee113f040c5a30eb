// Drawing from a stored plan: the array that belongs to a draw number.
#![tactic(auto)]

ghost use Rattle.std.specs.Prelude.{◌≡◌, ◌<◌, map, length};
ghost use Rattle.base.specs.Buffers.{written};
ghost use Rattle.refusals.specs.Due.{Answers};
ghost use Rattle.form.specs.Form.{decode};
ghost use Rattle.drawing.specs.Draw.{draw_refusal, drawn_array};
ghost use Rattle.drawing.specs.Clauses.{Drawing};
ghost use Rattle.weighted_arrays.specs.Plan.{Belongs};
ghost use Rattle.drawing.specs.Examples.{draw_cases, drawn, said};

use opening::open::{OpenPlan, open_plan};
use refusals::Refusal;

// The place, counted from 0, of the array that a draw number belongs to.
fn array_of(plan: &OpenPlan, number: u32) -> usize
    requires { number < plan.now.plan.sizes.denominator }
    ensures { Belongs (decode plan.now.plan.bytes.now).arrays number result }
{
    let arrays = plan.plan.sizes.arrays;
    let mut left = number;
    for k in 0..arrays {
        let w = plan.plan.weight(k);
        if left < w {
            return k;
        }
        left -= w;
    }
    arrays
}

// Writes the array of a draw number of an opened plan.
pub fn write_array(plan: &OpenPlan, number: u32, counts: &mut [u16])
    requires { Drawing plan.now.plan.sizes number counts.old }
    ensures { counts.new ≡ written (drawn_array plan.now.plan.bytes.now number) counts.old }
{
    let k = array_of(plan, number);
    plan.plan.read_array(k, counts);
}

// Writes the array of a draw number, or returns the lowest refusal that applies.
pub fn draw(plan: &[u8], number: u32, counts: &mut [u16]) -> Result<(), Refusal>
    ensures { Answers (draw_refusal plan.now number (length counts.old))
        (written (drawn_array plan.now number) counts.old) counts.old result counts.new }
{
    let opened = open_plan(plan)?;
    let s = opened.plan.sizes;
    let denominator = s.denominator;
    let cells = s.rows * s.columns;
    if counts.len() < cells {
        return Err(Refusal::Buffer);
    }
    if denominator <= number {
        return Err(Refusal::Number);
    }
    write_array(&opened, number, counts);
    Ok(())
}

// Draws from plans typed out byte by byte are as stated: at both ends of each array's numbers, each refusal, and each two at once.
pub fn claims()
    ensures draws { map drawn draw_cases ≡ map said draw_cases }
{}
