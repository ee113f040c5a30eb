// Numbers, lines and refusals as text, in a lent buffer.
#![tactic(auto)]

ghost use Rattle.std.specs.Prelude.{◌≡◌, map};
ghost use Rattle.printing.specs.Lines.{decimal};
ghost use Rattle.printing.specs.Examples.{numbers, numerals};

pub mod line;
pub mod write;

// The examples are as stated.
pub fn claims()
    ensures digits { map decimal numbers ≡ numerals }
{}
