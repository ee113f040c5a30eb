// Printing the line of a plan, or its refusal.
ghost use Rattle.std.specs.Prelude.{◌∷◌, ◌++◌, ◌≤◌, length};
ghost use Rattle.std.proofs.Math.IntN.{sub_ℕ};
ghost use Rattle.covariances.specs.Covariance.{lift};
ghost use Rattle.variances.specs.Clauses.{numerators_of};
ghost use Rattle.printing.specs.Lines.{decimal};
ghost use Rattle.printing.specs.Clauses.{Room};
ghost use Rattle.printing.specs.Write.{Wrote};
ghost use Rattle.variance_text.specs.VarianceText.{signed, rest_of_line};
ghost use Rattle.variance_text.specs.Write.{max_line, Prints};

use crate::Printed;
use covariances::LIFT;
use opening::open::open_plan;
use printing::line::print_refusal;
use printing::write::{put_byte, put_decimal, put_number};
use variances::Numerators;
use variances::measure::measure;

// A lifted number as what it stands for, with its sign.
fn put_signed(out: &mut [u8], at: usize, lifted: u64) -> usize
    requires { Room out.old at (signed (sub_ℕ lifted lift)) }
    ensures { Wrote out.old at (signed (sub_ℕ lifted lift)) out.new result }
{
    if lifted < LIFT {
        let end = put_byte(out, at, b'-');
        return put_decimal(out, end, LIFT - lifted);
    }
    put_decimal(out, at, lifted - LIFT)
}

// A space, and a lifted number.
fn put_covariance(out: &mut [u8], at: usize, lifted: u64) -> usize
    requires { Room out.old at (32 ∷ signed (sub_ℕ lifted lift)) }
    ensures { Wrote out.old at (32 ∷ signed (sub_ℕ lifted lift)) out.new result }
{
    let end = put_byte(out, at, b' ');
    put_signed(out, end, lifted)
}

// What follows a plan's number: the numerators, and the end of the line.
fn put_numerators(out: &mut [u8], at: usize, n: Numerators) -> usize
    requires { Room out.old at (rest_of_line (numerators_of n)) }
    ensures { Wrote out.old at (rest_of_line (numerators_of n)) out.new result }
{
    let first = put_number(out, at, 1, n.variances);
    let second = put_covariance(out, first, n.smallest);
    let third = put_covariance(out, second, n.largest);
    put_byte(out, third, b'\n')
}

// The line of plan number `number`.
fn print_line(number: u64, n: Numerators, out: &mut [u8]) -> usize
    requires { max_line ≤ length out.old }
    ensures { Wrote out.old 0 (decimal number ++ rest_of_line (numerators_of n)) out.new result }
{
    let end = put_decimal(out, 0, number);
    put_numerators(out, end, n)
}

// The text of plan number `number`: its line, or its refusal.
pub fn print_variances(number: u64, plan: &[u8], out: &mut [u8]) -> Printed
    requires { max_line ≤ length out.old }
    ensures { Prints number plan.now out.old out.new result }
{
    match open_plan(plan) {
        Err(x) => Printed {
            written: print_refusal(x, out, 0),
            go_on: false,
        },
        Ok(opened) => Printed {
            written: print_line(number, measure(&opened), out),
            go_on: true,
        },
    }
}
