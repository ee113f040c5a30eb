// The rounds of a plan: the limits of an array's entries, its weight, and what a round leaves.
#![tactic(auto)]

ghost use Rattle.std.specs.Prelude.{◌≡◌, map};
ghost use Rattle.planning.specs.Examples.{limits, limited};

mod limits;
pub mod round;

// The literal cases of limits are as stated.
pub fn claims()
    ensures limits { map limited limits ≡ map (λ x. x.limit) limits }
{}
