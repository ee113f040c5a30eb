// Tables of expected counts: their bounds, their refusals and their entries.
#![tactic(auto)]

ghost use Rattle.std.specs.Prelude.{◌≡◌, List, [], ◌∷◌, map, ℕ, Some};
ghost use Rattle.refusals.specs.declared.Refusal.TheVariants.{LargeCell};
ghost use Rattle.table.specs.Table.{max_rows, max_columns, max_arrays, max_denominator, max_expected, max_cells, entries};
ghost use Rattle.table.specs.Check.{BelowZero, table_refusal};
ghost use Rattle.table.specs.Examples.{cases, checked, rounded, rounded_of, full, full_entries};

pub mod check;
pub mod sums;
pub mod whole;

use refusals::Refusal;

// The sizes of an accepted table.
#[derive(Clone, Copy)]
pub struct Table {
    pub rows: usize,
    pub columns: usize,
    pub denominator: u64,
}

impl Table {
    pub const MAX_ROWS: u32 = 12;

    pub const MAX_COLUMNS: u32 = 12;

    pub const MAX_ARRAYS: u32 = 170;

    pub const MAX_DENOMINATOR: u32 = 65535;

    // a cell is at most this many times the denominator
    pub const MAX_EXPECTED: u32 = 1000;

    // 12 rows of 12
    pub const MAX_CELLS: u32 = 144;
}

// The constants of the code are the bounds of the definitions.
pub fn bounds()
    ensures rows { Table.MAX_ROWS ≡ max_rows }
    ensures columns { Table.MAX_COLUMNS ≡ max_columns }
    ensures arrays { Table.MAX_ARRAYS ≡ max_arrays }
    ensures denominator { Table.MAX_DENOMINATOR ≡ max_denominator }
    ensures expected { Table.MAX_EXPECTED ≡ max_expected }
    ensures cells { Table.MAX_CELLS ≡ max_cells }
{}

// A cell below zero is 4, whatever the table, where none of 1 to 3 applies. And the literal cases are as stated: refusals 1 to 4 and each two of them at once,
// the order of the entries, the rounding of one entry, and the largest entries.
pub fn claims()
    ensures below_zero { (r c d : ℕ) (g : List ℕ) → BelowZero r c d g → table_refusal r c d g ≡ Some LargeCell }
    ensures checks { map checked cases ≡ map (λ x. x.number) cases }
    ensures entries { entries 2 3 (1 ∷ 2 ∷ 3 ∷ 40 ∷ 50 ∷ 60 ∷ []) ≡ 1 ∷ 2 ∷ 3 ∷ 40 ∷ 50 ∷ 60 ∷ 6 ∷ 150 ∷ 41 ∷ 52 ∷ 63 ∷ 156 ∷ [] }
    ensures rounded { map (λ x. rounded_of x.entry) rounded ≡ rounded }
    ensures largest { entries 12 12 full ≡ full_entries }
{}
