// Printing a stored plan, and the refusal of a text.
ghost use Rattle.std.specs.Prelude.{◌+◌, ◌<◌};
ghost use Rattle.form.specs.Form.{decode};
ghost use Rattle.printing.specs.Lines.{line};
ghost use Rattle.printing.specs.Clauses.{Room};
ghost use Rattle.printing.specs.Write.{Wrote};
ghost use Rattle.plan_text.specs.Text.{listing, refused_text};
ghost use Rattle.plan_text.specs.Clauses.{plan_line, ListableAt};

use form::layout::sizes;
use printing::line::print_numbers;
use printing::write::put_bytes;
use reading::LaidOut;

// The first line: the sizes.
fn print_head(plan: &LaidOut, out: &mut [u8], at: usize) -> usize
    requires { Room out.old at (line (plan_line (decode plan.now.bytes.now) 0)) }
    ensures { Wrote out.old at (line (plan_line (decode plan.now.bytes.now) 0)) out.new result }
{
    let s = plan.sizes;
    let numbers = [
        s.rows as u32,
        s.columns as u32,
        s.denominator,
        s.arrays as u32,
    ];
    print_numbers(&numbers, out, at)
}

// The line of array k, counted from 0: its weight, then its counts.
fn print_array(plan: &LaidOut, k: usize, out: &mut [u8], at: usize) -> usize
    requires there { k < plan.now.sizes.arrays }
    requires room { Room out.old at (line (plan_line (decode plan.now.bytes.now) (k + 1))) }
    ensures { Wrote out.old at (line (plan_line (decode plan.now.bytes.now) (k + 1))) out.new result }
{
    let cells = plan.sizes.rows * plan.sizes.columns;
    let mut counts = [0; 144];
    plan.read_array(k, &mut counts);
    let mut numbers = [0; 145];
    numbers[0] = plan.weight(k);
    numbers[1..].copy_from_slice(&counts.map(|count| u32::from(count)));
    print_numbers(&numbers[..1 + cells], out, at)
}

// All lines of a stored plan.
fn print_lines(plan: &LaidOut, out: &mut [u8], at: usize) -> usize
    requires { Room out.old at (listing (decode plan.now.bytes.now)) }
    ensures { Wrote out.old at (listing (decode plan.now.bytes.now)) out.new result }
{
    let mut end = print_head(plan, out, at);
    for k in 0..plan.sizes.arrays {
        end = print_array(plan, k, out, end);
    }
    end
}

// The listing of a stored plan.
pub fn print_plan_bytes(bytes: &[u8], out: &mut [u8], at: usize) -> usize
    requires { ListableAt bytes.now out.old at }
    ensures { Wrote out.old at (listing (decode bytes.now)) out.new result }
{
    let sizes = sizes(bytes);
    print_lines(&LaidOut { bytes, sizes }, out, at)
}

// The listing of a text that is refused.
pub fn print_text_refusal(out: &mut [u8], at: usize) -> usize
    requires { Room out.old at refused_text }
    ensures { Wrote out.old at refused_text out.new result }
{
    put_bytes(out, at, b"refused text\n")
}
