// Stored plans, form 1, and their layout. Only the crates that write and read a plan's bytes know an offset or a width from here.
#![tactic(auto)]

ghost use Rattle.std.specs.Prelude.{◌≡◌, true, map};
ghost use Rattle.base.specs.Lists.{all};
ghost use Rattle.form.specs.Form.{min_length, max_length, plan_length, encode, decode, laid_out};
ghost use Rattle.form.specs.Examples.{stored};

pub mod layout;

// The sizes of a plan.
#[derive(Clone, Copy, Debug, PartialEq, Eq)]
pub struct Sizes {
    pub rows: usize,
    pub columns: usize,
    pub arrays: usize,
    pub denominator: u32,
}

// The shortest and the longest stored plan.
pub const MIN_LENGTH: usize = 30;

pub const MAX_LENGTH: usize = 50912;

// The constants of the code are the bounds of the definitions.
pub fn bounds()
    ensures shortest { MIN_LENGTH ≡ min_length }
    ensures longest { MAX_LENGTH ≡ max_length }
{}

// Plans typed out byte by byte are laid out, hold what is said of them, and are what storing it gives; and the shortest and the longest plan.
pub fn claims()
    ensures laid { all (λ x. laid_out x.bytes) stored ≡ true }
    ensures read { map (λ x. decode x.bytes) stored ≡ map (λ x. x.plan) stored }
    ensures stored { map (λ x. encode x.plan) stored ≡ map (λ x. x.bytes) stored }
    ensures shortest { plan_length 1 1 1 ≡ 30 }
    ensures longest { plan_length 12 12 170 ≡ 50912 }
{}
