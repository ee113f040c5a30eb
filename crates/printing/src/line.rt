// Printing lines of numbers, and refusals.
ghost use Rattle.refusals.specs.Numbers.{number_of};
ghost use Rattle.printing.specs.Lines.{line, refused};
ghost use Rattle.printing.specs.Clauses.{Room};
ghost use Rattle.printing.specs.Write.{Wrote};

use crate::write::{put_bytes, put_decimal, put_number};
use refusals::Refusal;

// Prints numbers as a line.
pub fn print_numbers(numbers: &[u32], out: &mut [u8], at: usize) -> usize
    requires { Room out.old at (line numbers.now) }
    ensures { Wrote out.old at (line numbers.now) out.new result }
{
    let mut end = at;
    for (i, x) in numbers.iter().enumerate() {
        end = put_number(out, end, i, u64::from(*x));
    }
    put_bytes(out, end, b"\n")
}

// The listing of a refusal.
pub fn print_refusal(r: Refusal, out: &mut [u8], at: usize) -> usize
    requires { Room out.old at (refused (number_of r)) }
    ensures { Wrote out.old at (refused (number_of r)) out.new result }
{
    let first = put_bytes(out, at, b"refused ");
    let second = put_decimal(out, first, u64::from(u32::from(r)));
    put_bytes(out, second, b"\n")
}
