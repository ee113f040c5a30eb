// What the specification asks for, as statements; `claims` proves them of the definitions that the code is equated with. Literal cases of each definition stand
// in `claims` of the crate that holds it.
//
// Demand 1, that every call ends, touches only memory that it was lent, and refuses what it has to: being proved means the first two; `refusals` says which
// refusal each call returns, and `below_zero` that a cell below zero is one; that a refusal leaves every lent buffer as it was is in each call's contract (`after`).
// Demand 2, that every plan is the specification's: `plans`; that the call writes just this plan is the contract of `plan::plan`. A stored plan opens just if it meets the stated conditions: `opens`.
// Demand 3, on campaigns: `every_run` after a start and `resumes` from any record that fits, for any plan that opens; and `serves`, for the plan of every
// accepted table.
// What came later: pooling, `pools`; the reasons of weights, `reasons`; the walk through a small table, `walks`; variances, in `variances::claims`; the rounding
// of corrections, in `corrections::claims`, with its refusals here.
#![tactic(auto)]

ghost use Rattle.std.specs.Prelude.{◌≡◌, true, List, map, ℕ, ◌*◌, ◌<◌, ◌≤◌, length, None, Result, ⊤};
ghost use Rattle.base.specs.Lists.{sum};
ghost use Rattle.refusals.specs.Due.{Answers};
ghost use Rattle.table.specs.Table.{max_rows, max_columns, max_entries, entry_places};
ghost use Rattle.table.specs.Whole.{down, whole};
ghost use Rattle.table.specs.Check.{table_refusal};
ghost use Rattle.weighted_arrays.specs.Plan.{Weighted};
ghost use Rattle.opening.specs.Open.{Opens};
ghost use Rattle.planning.specs.Rounds.{limit_of};
ghost use Rattle.plan.specs.Call.{plan_bytes, PlanAnswers};
ghost use Rattle.plan.specs.Promises.{Promises};
ghost use Rattle.reasons.specs.Call.{reason_refusal};
ghost use Rattle.reasons.specs.Explained.{Explained};
ghost use Rattle.pool.specs.Pool.{pooling_refusal, pool_refusal, Lent, pooled_into};
ghost use Rattle.walk.specs.Call.{max_side};
ghost use Rattle.demands.specs.Refusals.{EachRefuses, BelowZeroRefused};
ghost use Rattle.demands.specs.Opening.{Conditions};
ghost use Rattle.demands.specs.Claim.{Claim};
ghost use Rattle.demands.specs.Resumed.{Resumes};
ghost use Rattle.demands.specs.Plans.{Served};
ghost use Rattle.demands.specs.Pools.{ServedPool};
ghost use Rattle.demands.specs.Walks.{Walked};
ghost use Rattle.demands.specs.Numbers.{Belonging};
ghost use Rattle.demands.specs.Examples.{ExamplesHold};
ghost use Rattle.demands.specs.Campaigns.{runs, said_of};
ghost use Rattle.demands.specs.Slips.{SlipsShut};
ghost use Rattle.refusals.specs.declared.Refusal.{Refusal};

pub fn claims()
    // every call returns the lowest refusal that applies, and one with refusals that came later the first in its order
    ensures refusals { EachRefuses }
    // a cell below zero, handed over as its bits
    ensures below_zero { BelowZeroRefused }
    // what the plan of every accepted table keeps
    ensures plans { (r c d : ℕ) (g : List ℕ) → table_refusal r c d g ≡ None → Promises r c d g }
    // which entry set the weight of each of its arrays
    ensures reasons { (r c d : ℕ) (g : List ℕ) (k : ℕ) → reason_refusal r c d g k ≡ None → Explained r c d g k }
    // bytes open just if they meet the conditions
    ensures opens { (b : List ℕ) → (Opens b → Conditions b) × (Conditions b → Opens b) }
    // every list of draws after a start, on any plan that opens
    ensures every_run { Claim }
    // and every list of draws from a record on that fits, wherever it was stored
    ensures resumes { (b : List ℕ) → Opens b → Resumes b }
    // and on what the call "plan" gives for every accepted table, in a buffer with room
    ensures serves { (r c d : ℕ) (g old new : List ℕ) (p : Result ℕ Refusal) → table_refusal r c d g ≡ None → length (plan_bytes r c d g) ≤ length old
        → PlanAnswers r c d g old p new → Served r c d g p new }
    // two tables that are pooled into buffers with room, and the pool then planned
    ensures pools { (r c d : ℕ) (g : List ℕ) (e : ℕ) (h : List ℕ) (old new : Lent) (a : Result ⊤ Refusal) → pooling_refusal r c d g e h ≡ None
        → 1 ≤ length old.denominator → r * c ≤ length old.cells
        → Answers (pool_refusal r c d g e h (length old.denominator) (length old.cells)) (pooled_into d g e h old) old a new
        → ServedPool r c d g e h a new }
    // the list that the two calls of a walk make
    ensures walks { (r c d : ℕ) (g : List ℕ) → table_refusal r c d g ≡ None → r ≤ max_side → c ≤ max_side → Walked r c d g }
    // sentences of the specification that follow from its definitions: the number of entries, a whole entry's limit, the array of a draw number
    ensures entries { (r c : ℕ) → r ≤ max_rows → c ≤ max_columns → length (entry_places r c) ≤ max_entries }
    ensures whole_limit { (w e : ℕ) → whole w e ≡ true → limit_of w e (down w e) ≡ w }
    ensures belongs { (l : List Weighted) (d : ℕ) → d < sum (map (λ a. a.weight) l) → Belonging l d }
    // its examples, small campaigns, and the slips that it lists
    ensures examples { ExamplesHold }
    ensures campaigns { map (λ r. said_of r.plan r.given r.before r.list) runs ≡ map (λ r. r.said) runs }
    ensures slips { SlipsShut }
{}
