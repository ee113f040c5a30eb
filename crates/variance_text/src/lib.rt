// The text of the variance program: what it prints of each plan, and how its input is cut into plans.
#![tactic(auto)]

ghost use Rattle.std.specs.Prelude.{◌≡◌, true, false, List, [], ◌∷◌, ◌++◌, map, ℕ, ◌+◌, ◌-◌, ◌≤◌, length, take, drop};
ghost use Rattle.base.specs.Lists.{all};
ghost use Rattle.variance_text.specs.VarianceText.{signed, plan_text, goes_on, printed_from, to_read, plans_of, joined, program_text};
ghost use Rattle.variance_text.specs.Write.{max_line};
ghost use Rattle.variance_text.specs.Examples.{numbers, numerals, heads, programs};

pub mod head;
pub mod print;

// No line, and no refusal, is longer.
pub const MAX_LINE: usize = 87;

// How many bytes were written of a plan's text, and whether the run goes on after it.
// stays: of a line and of a refusal the caller needs the number of bytes alike, so that in an enum each variant would hold it
#[derive(Clone, Copy)]
pub struct Printed {
    pub written: usize,
    pub go_on: bool,
}

// The constants of the code are the bounds of the definitions.
pub fn bounds()
    ensures line { MAX_LINE ≡ max_line }
{}

// The text of plans one after another: while all open, each adds its own; after one that does not open, none does. An input's plans make it up, and the
// first is made of its first eight bytes and as many more as these say. No plan's text is longer than the longest. And the literal cases are as stated.
pub fn claims()
    ensures more { (n : ℕ) (l : List (List ℕ)) (b : List ℕ) → all goes_on l ≡ true
        → printed_from n (l ++ (b ∷ [])) ≡ printed_from n l ++ plan_text (n + length l) b }
    ensures ended { (n : ℕ) (l m : List (List ℕ)) → all goes_on l ≡ false → printed_from n (l ++ m) ≡ printed_from n l }
    ensures whole { (s : List ℕ) → joined (plans_of s) ≡ s }
    ensures parts { (s : List ℕ) → take 8 s ++ take (to_read (take 8 s) - 8) (drop 8 s) ≡ take (to_read (take 8 s)) s }
    ensures longest { (n : ℕ) (b : List ℕ) → length (plan_text n b) ≤ max_line }
    ensures signs { map signed numbers ≡ numerals }
    ensures heads { map (λ x. to_read x.bytes) heads ≡ map (λ x. x.reads) heads }
    ensures programs { map (λ x. program_text x.input) programs ≡ map (λ x. x.prints) programs }
{}
