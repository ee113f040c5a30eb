// Refusals, their numbers, and which one a call returns.
#![tactic(auto)]

ghost use Rattle.std.specs.Prelude.{◌≡◌, true, List, get_or, Some, None};
ghost use Rattle.refusals.specs.Numbers.{number_of};
ghost use Rattle.refusals.specs.Places.{order, order_on_plan, place_in};
ghost use Rattle.refusals.specs.Answer.{answer_number};
ghost use Rattle.refusals.specs.Due.{Test, due, none_applies, FirstDue};
ghost use Rattle.refusals.specs.Clauses.{lower_of};

use std::cmp::min_by_key;

// Why a call refuses its input, in the order of the refusals' numbers.
#[derive(Clone, Copy, Debug, PartialEq, Eq)]
pub enum Refusal {
    // rows or columns not from 1 to 12
    Size,
    // the denominator not from 1 to 65,535
    Denominator,
    // the cells are not rows times columns many
    CellCount,
    // a cell above 1000 times the denominator, or a correction below -1000 times it; in a table without signs a negative cell is above it, read as its bits
    LargeCell,
    // form, zero field, sizes, an offset or the length of a stored plan wrong
    Layout,
    // a stored cell above 1000 times the denominator, or another condition of opening unmet
    Content,
    // a lent buffer shorter than its result or record
    Buffer,
    // a draw number not below the denominator
    Number,
    // the record does not fit the plan
    Record,
    // the number is taken
    Taken,
    // the least common multiple of two denominators above 65,535
    Multiple,
    // a pooled cell above 1000 times the pooled denominator
    PooledCell,
    // all rounds of the campaign are done
    Rounds,
    // the plan has no array of that number
    Array,
    // rows or columns above 4 in a walk
    WalkSize,
    // the array handed in is no controlled rounding of the table
    NotRounding,
}

impl From<Refusal> for u32 {
    ghost from_gives = { λ r n. n ≡ number_of r };

    // The number of a refusal.
    fn from(r: Refusal) -> u32 {
        match r {
            Refusal::Size => 1,
            Refusal::Denominator => 2,
            Refusal::CellCount => 3,
            Refusal::LargeCell => 4,
            Refusal::Layout => 5,
            Refusal::Content => 6,
            Refusal::Buffer => 7,
            Refusal::Number => 8,
            Refusal::Record => 9,
            Refusal::Taken => 10,
            Refusal::Multiple => 11,
            Refusal::PooledCell => 12,
            Refusal::Rounds => 13,
            Refusal::Array => 14,
            Refusal::WalkSize => 15,
            Refusal::NotRounding => 16,
        }
    }
}

// Of two refusals the one with the lower number.
pub fn lower(x: Refusal, y: Refusal) -> Refusal
    ensures { result ≡ lower_of x y }
{
    min_by_key(x, y, |r| u32::from(*r))
}

// The number of an answer: 0 where there is no refusal.
// stays: a number, for the C interface
pub fn answer_number<T: Drop>(a: Result<T, Refusal>) -> u32
    ensures { result ≡ answer_number a }
{
    match a {
        Ok(_) => 0,
        Err(x) => u32::from(x),
    }
}

// Of any list of conditions and refusals: what is returned applies, and nothing before it does; and nothing is returned exactly if none applies. In either
// order each refusal's number stands at its place, so that no two share one.
pub fn claims()
    ensures first { (l : List Test) (x : Refusal) → due l ≡ Some x → FirstDue l x }
    ensures none { (l : List Test) → (due l ≡ None → none_applies l ≡ true) × (none_applies l ≡ true → due l ≡ None) }
    ensures places { (x : Refusal) → (get_or order (place_in order x) 0 ≡ number_of x) × (get_or order_on_plan (place_in order_on_plan x) 0 ≡ number_of x) }
{}
