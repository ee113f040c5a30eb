// Opening a stored plan.
#![tactic(auto)]

ghost use Rattle.std.specs.Prelude.{◌≡◌, map};
ghost use Rattle.opening.specs.Examples.{cases, opened, parts, part_number};

mod content;
pub mod open;

// Plans typed out byte by byte open or are refused as the specification says: each condition, and each two refusals at once; and so are calls that take a
// plan and write numbers into a buffer.
pub fn claims()
    ensures opens { map opened cases ≡ map (λ x. x.number) cases }
    ensures parts { map part_number parts ≡ map (λ x. x.number) parts }
{}
