// What the printing program prints of its input.
ghost use Rattle.std.specs.Prelude.{◌≤◌, length};
ghost use Rattle.printing.specs.Write.{Wrote};
ghost use Rattle.plan_text.specs.Text.{table_output, output, max_listing};

use crate::print::{print_plan_bytes, print_text_refusal};
use form::MAX_LENGTH;
use parsing::parse;
use plan::plan;
use printing::line::print_refusal;

// The listing of a table's plan, or the table's refusal.
fn output_table(rows: u32, columns: u32, denominator: u32, cells: &[u32], out: &mut [u8]) -> usize
    requires { max_listing ≤ length out.old }
    ensures { Wrote out.old 0 (table_output rows columns denominator cells.now) out.new result }
{
    let mut buffer = [0u8; MAX_LENGTH];
    match plan(rows, columns, denominator, cells, &mut buffer) {
        Err(x) => print_refusal(x, out, 0),
        Ok(n) => print_plan_bytes(&buffer[..n as usize], out, 0),
    }
}

// What an input is answered with; the first three numbers are r, c and D.
pub fn output(input: &[u8], out: &mut [u8]) -> usize
    requires { max_listing ≤ length out.old }
    ensures { Wrote out.old 0 (output input.now) out.new result }
{
    let Some(parsed) = parse(input) else {
        return print_text_refusal(out, 0);
    };
    let n = &parsed.numbers;
    output_table(n[0], n[1], n[2], &n[3..parsed.count], out)
}
