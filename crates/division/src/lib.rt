// The one division of an entry: by a weight, rounded towards minus infinity, with its rest.
#![tactic(auto)]

ghost use Rattle.std.specs.Prelude.{◌≡◌, map, ℕ, ◌<◌, ℤ};
ghost use Rattle.division.specs.Division.{down, rest, Parts};
ghost use Rattle.division.specs.Clauses.{flip_of, Divides};
ghost use Rattle.division.specs.Examples.{cases, divided};

// An entry over a weight: rounded down, and what is left over, from 0 to below the weight.
#[derive(Clone, Copy)]
pub struct Divided {
    pub whole: i64,
    pub rest: u64,
}

// -1 - a, which has a sign just if a has none, and fits for every a.
fn flip(a: i64) -> i64
    ensures { result ≡ flip_of a }
{
    -1 - a
}

// Divides an entry of either sign by a weight. Below zero -1 - entry is divided: its quotient, flipped back, is the entry's rounded down.
// stays: std's div_euclid and rem_euclid take a weight of 64 bits only in 128, which takes nearly twice as long: of 29,000 divisions a plan, planning would miss its 0.18 of the straightforward program
pub fn divide(entry: i64, weight: u64) -> Divided
    requires { 0 < weight }
    ensures { Divides weight entry result }
{
    if entry < 0 {
        let below = flip(entry) as u64;
        let whole = flip((below / weight) as i64);
        return Divided {
            whole,
            rest: weight - 1 - below % weight,
        };
    }
    let natural = entry as u64;
    let whole = (natural / weight) as i64;
    Divided {
        whole,
        rest: natural % weight,
    }
}

// What quotient and rest mean, for every number below, at and above zero, and that no others do; and the literal cases are as stated.
pub fn claims()
    ensures meaning { (w : ℕ) (z : ℤ) → 0 < w → Parts w z (down w z) (rest w z) }
    ensures only { (w : ℕ) (z q : ℤ) (f : ℕ) → Parts w z q f → (down w z ≡ q) × (rest w z ≡ f) }
    ensures cases { map divided cases ≡ map (λ x. x.parts) cases }
{}
