// Prints the plan of the table on standard input, or why there is none; `plan_text::output` says what is printed.
#![tactic(auto)]

use plan_text::MAX_LISTING;
use plan_text::output::output;
use reading_input::read_full;

fn main(rt: HostRuntime) {
    // One byte more than a text may have, so that a longer input is refused.
    let mut input = [0u8; 4097];
    let read = read_full(&mut rt.stdin(), &mut input);
    let mut out = [0u8; MAX_LISTING];
    let written = output(&input[..read], &mut out);
    let _ = rt.write_all(&out[..written]);
}
