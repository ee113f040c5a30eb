// Exact variances and covariances of a plan's cells, as numerators over D·D.
#![tactic(auto)]

ghost use Rattle.std.specs.Prelude.{◌≡◌, true, ℕ, ◌*◌, ◌<◌, ◌≤◌, ℤ, pos, length, get_or};
ghost use mathlib.Core.List.{List, map, Memᴰ as Member};
ghost use Rattle.std.specs.Int.Signed.{le_z};
ghost use Rattle.table.specs.Table.{row_places, total};
ghost use Rattle.weighted_arrays.specs.Plan.{Plan, cell_count};
ghost use Rattle.form.specs.Form.{decode};
ghost use Rattle.opening.specs.Open.{held_to, Opens};
ghost use Rattle.covariances.specs.Covariance.{at, weighted_products, covariance, cell_covariance, smallest, largest, lift};
ghost use Rattle.variances.specs.Variance.{variance, over_pairs, rounding_variance};
ghost use Rattle.variances.specs.Examples.{cases, told, said};

pub mod call;
pub mod measure;

// The three numerators of a plan: the sum of all cell variances, and the smallest and the largest covariance of two different cells, these two lifted
// by `covariances::LIFT`.
#[derive(Clone, Copy)]
pub struct Numerators {
    pub variances: u64,
    pub smallest: u64,
    pub largest: u64,
}

// Of any plan: a covariance does not depend on the order of its two, and the variance of a total over some places is the sum of the covariances over all
// their ordered pairs. Of every plan that opens: the variance of a cell, and of any entry that the plan is held to, is f·(D - f), f the remainder of the
// table's by D; so is the sum of the covariances over all ordered pairs in a row, a cell with itself included, f the remainder of the row's total; and
// neither side of a covariance of two cells is above the lift, which is below 2^53. Of every list that is not empty: its smallest and its largest are of
// it, and none of it is below the one or above the other. And the literal cases are as stated.
pub fn claims()
    ensures symmetric { (p : Plan) (x y : List ℕ → ℕ) → covariance p x y ≡ covariance p y x }
    ensures pairs { (p : Plan) (s : List ℕ) → variance p s ≡ over_pairs p s }
    ensures cells { (b : List ℕ) → Opens b → (k : ℕ) → k < cell_count (decode b)
        → cell_covariance (decode b) k k ≡ pos (rounding_variance (decode b).denominator (get_or (decode b).cells k 0)) }
    ensures entries { (b : List ℕ) → Opens b → (s : List ℕ) → Member s (held_to (decode b).rows (decode b).columns)
        → variance (decode b) s ≡ pos (rounding_variance (decode b).denominator (total (decode b).cells s)) }
    ensures rows { (b : List ℕ) → Opens b → (i : ℕ) → i < (decode b).rows → over_pairs (decode b) (row_places (decode b).columns i)
        ≡ pos (rounding_variance (decode b).denominator (total (decode b).cells (row_places (decode b).columns i))) }
    ensures bounded { (b : List ℕ) → Opens b → (i j : ℕ) → i < cell_count (decode b) → j < cell_count (decode b)
        → ((decode b).denominator * weighted_products (decode b).arrays (at i) (at j) ≤ lift) × (at i (decode b).cells * at j (decode b).cells ≤ lift) }
    ensures smallest { (l : List ℤ) → 1 ≤ length l → Member (smallest l) l × ((z : ℤ) → Member z l → le_z (smallest l) z ≡ true) }
    ensures largest { (l : List ℤ) → 1 ≤ length l → Member (largest l) l × ((z : ℤ) → Member z l → le_z z (largest l) ≡ true) }
    ensures told { map told cases ≡ map said cases }
{}
