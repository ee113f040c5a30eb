// The greatest common divisor and the least common multiple of two numbers.
#![tactic(auto)]

ghost use Rattle.std.specs.Prelude.{◌≡◌, map, ℕ, ◌≤◌};
ghost use Rattle.std.specs.Int.{IsGcd};
ghost use Rattle.multiples.specs.Multiple.{least_multiple, LeastMultiple};
ghost use Rattle.multiples.specs.Clauses.{Multipliable};
ghost use Rattle.multiples.specs.Examples.{cases, multiple};

// The greatest common divisor, by recursion: the second number, at each call the remainder of the two before, falls.
pub fn gcd(a: u64, b: u64) -> u64
    ensures { IsGcd a b result }
{
    if b == 0 { a } else { gcd(b, a % b) }
}

// The least common multiple. It is at most the product, which is asked to fit.
pub fn lcm(a: u64, b: u64) -> u64
    requires { Multipliable a b }
    ensures { result ≡ least_multiple a b }
{
    let g = gcd(a, b);
    a / g * b
}

// The number that the search finds is the least common multiple, said without a search; and the literal cases are as stated.
pub fn claims()
    ensures least { (a b : ℕ) → 1 ≤ a → 1 ≤ b → LeastMultiple a b (least_multiple a b) }
    ensures cases { map multiple cases ≡ map (λ x. x.multiple) cases }
{}
