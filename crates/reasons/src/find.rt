// The reason of an array's weight: the rounds up to its own, each in place of the one before.
ghost use Rattle.std.specs.Prelude.{◌≡◌, List, ℕ, ◌<◌};
ghost use Rattle.table.specs.Clauses.{Dividable, Shape};
ghost use Rattle.grid.specs.Clauses.{grid_of};
ghost use Rattle.planning.specs.Rounds.{round_on};
ghost use Rattle.reasons.specs.Reason.{reason_of};
ghost use Rattle.reasons.specs.Call.{reason_answer};
ghost use Rattle.reasons.specs.Clauses.{entry_at, directed};

use crate::{Direction, Entry, Explanation};
use limit_search::first_place;
use planning::round::Remaining;
use refusals::Refusal;
use table::check::Accepted;
use table::whole::divide;

// The entry that stands at a place.
pub fn entry_at(place: usize) -> Entry
    requires { place < 169 }
    ensures { result ≡ entry_at place }
{
    match (place / 13, place % 13) {
        (12, 12) => Entry::GrandTotal,
        (12, q) => Entry::ColumnTotal(q as u32 + 1),
        (p, 12) => Entry::RowTotal(p as u32 + 1),
        (p, q) => Entry::Cell(p as u32 + 1, q as u32 + 1),
    }
}

// How an entry over w with its count was rounded, where the weight is x. All are whole just if the weight is all that is left.
fn direction(w: u64, x: u64, entry: u64, count: u64) -> Direction
    requires { Dividable w entry }
    ensures { result ≡ directed w x entry count }
{
    if x == w {
        return Direction::AllWhole;
    }
    let d = divide(entry, w);
    if count == d.whole {
        Direction::Down
    } else {
        Direction::Up
    }
}

// The reason of the next array n of what is left of a table.
fn reason_of(left: &Remaining, n: &mut [u64; 169]) -> Explanation
    requires { 0 < left.now.weight }
    ensures { (g : List ℕ) → Shape left.now.rows left.now.columns g → left.now.entries ≡ grid_of left.now.rows left.now.columns g
        → result ≡ reason_of left.now.rows left.now.columns (round_on left.now.rows left.now.columns left.now.weight g) }
{
    let mut l = [0u64; 169];
    let x = left.next_array(n, &mut l);
    let k = first_place(&l, x, left.rows, left.columns);
    Explanation {
        entry: entry_at(k),
        direction: direction(left.weight, x, left.entries[k], n[k]),
    }
}

// The reason of the weight of an array, from 1 on, of an accepted table's plan; refused where the rounds end before it.
pub fn find(t: &Accepted, array: u32) -> Result<Explanation, Refusal>
    ensures { result ≡ reason_answer t.now.sizes.rows t.now.sizes.columns t.now.sizes.denominator t.now.cells.now array }
{
    let mut left = Remaining::of(t);
    // one array for all rounds, so that a reason needs less than 10 KB of stack
    let mut n = [0u64; 169];
    for k in 1..=array {
        if left.weight == 0 {
            break;
        }
        if k == array {
            return Ok(reason_of(&left, &mut n));
        }
        left.one_round(&mut n);
    }
    Err(Refusal::Array)
}
