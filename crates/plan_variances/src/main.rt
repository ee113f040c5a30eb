// Prints a line of variances for each stored plan on standard input, up to one that does not open; `variance_text::print` says what is printed of each.
#![tactic(auto)]

ghost use Rattle.std.specs.Prelude.{◌≤◌, length};
ghost use Rattle.form.specs.Form.{max_length};
ghost use Rattle.variance_text.specs.Read.{HasRead};

use form::MAX_LENGTH;
use reading_input::read_full;
use std::io::Stdin;
use variance_text::MAX_LINE;
use variance_text::head::plan_length;
use variance_text::print::print_variances;

// Reads the next plan, or what is left of the input where it ends before, and returns how many bytes came.
fn read_plan(mut input: Stdin, plan: &mut [u8]) -> usize
    requires { max_length ≤ length plan.old }
    ensures { HasRead plan.new result }
{
    let head = read_full(&mut input, &mut plan[..8]);
    let length = plan_length(&plan[..head]);
    let rest = read_full(&mut input, &mut plan[8..length]);
    head + rest
}

// Reads a plan and prints its text. Says whether to go on: there was one, its text was written, and it opens.
fn show_next(rt: &HostRuntime, number: u64) -> bool {
    let mut plan = [0u8; MAX_LENGTH];
    let length = read_plan(rt.stdin(), &mut plan);
    if length == 0 {
        return false;
    }
    let mut out = [0u8; MAX_LINE];
    let printed = print_variances(number, &plan[..length], &mut out);
    let is_written = rt.write_all(&out[..printed.written]).is_ok();
    is_written && printed.go_on
}

// A proved loop has to end, and nothing says that the input does. So this one ends at a number of plans that no run uses up.
fn main(rt: HostRuntime) {
    for number in 1..=u64::MAX {
        if !show_next(&rt, number) {
            break;
        }
    }
}
