// The text of the printing program: what it prints of its input.
#![tactic(auto)]

ghost use Rattle.std.specs.Prelude.{◌≡◌, true, List, map, ℕ, ◌<◌, ◌≤◌, length, get_or};
ghost use Rattle.form.specs.Form.{laid_out, decode};
ghost use Rattle.plan_text.specs.Text.{listing, output, max_listing};
ghost use Rattle.plan_text.specs.Examples.{outputs};

pub mod output;
mod print;

// No listing of a laid-out plan is longer.
pub const MAX_LISTING: usize = 148766;

// The constant of the code is the bound of the definitions.
pub fn bounds()
    ensures listing { MAX_LISTING ≡ max_listing }
{}

// No laid-out plan has a longer listing than the longest; and the examples are as stated.
pub fn claims()
    ensures longest { (b : List ℕ) → ((k : ℕ) → get_or b k 0 < 256) → laid_out b ≡ true
        → length (listing (decode b)) ≤ max_listing }
    ensures printed { map (λ o. output o.text) outputs ≡ map (λ o. o.prints) outputs }
{}
