// Which entry set the weight of an array of a table's plan.
#![tactic(auto)]

ghost use Rattle.std.specs.Prelude.{◌≡◌, List, map, ℕ, None};
ghost use Rattle.table.specs.Table.{entry_places};
ghost use Rattle.reasons.specs.Reason.{named_entries, places_of};
ghost use Rattle.reasons.specs.Call.{reason_refusal, reason_answer};
ghost use Rattle.reasons.specs.Explained.{Explained};

use crate::find::find;
use refusals::Refusal;
use table::check::accept;

mod find;

// An entry of a table; rows and columns are counted from 1.
#[derive(Clone, Copy, Debug, PartialEq, Eq)]
pub enum Entry {
    // row, column
    Cell(u32, u32),
    RowTotal(u32),
    ColumnTotal(u32),
    GrandTotal,
}

// The way an entry was rounded, or that all entries were whole.
#[derive(Clone, Copy, Debug, PartialEq, Eq)]
pub enum Direction {
    AllWhole,
    Down,
    Up,
}

// The reason of an array's weight: the entry that set it, and the way it was rounded.
#[derive(Clone, Copy, Debug, PartialEq, Eq)]
pub struct Explanation {
    pub entry: Entry,
    pub direction: Direction,
}

// The reason of the weight of an array, from 1 on, of a table's plan, or the first refusal that applies.
pub fn reason(
    rows: u32,
    columns: u32,
    denominator: u32,
    cells: &[u32],
    array: u32,
) -> Result<Explanation, Refusal>
    ensures { result ≡ reason_answer rows columns denominator cells.now array }
{
    let t = accept(rows, columns, denominator, cells)?;
    find(&t, array)
}

// What holds of the reason of every array of an accepted table; and the named entries are the table's, in their order.
pub fn claims()
    ensures explained { (r c d : ℕ) (g : List ℕ) (k : ℕ) → reason_refusal r c d g k ≡ None → Explained r c d g k }
    ensures named { (r c : ℕ) → map (places_of r c) (named_entries r c) ≡ entry_places r c }
{}
