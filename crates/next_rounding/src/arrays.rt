// Arrays by number: each count is that rounded down, or one more where the binary digit of its cell is 1; the first cell in the order has the highest digit.
ghost use Rattle.std.specs.Prelude.{◌≡◌, ◌+◌, ◌*◌, ◌/◌, ◌%◌, ◌^◌, ◌≤◌, length, MatchOption};
ghost use Rattle.base.specs.Buffers.{written};
ghost use Rattle.table.specs.Table.{entry_places};
ghost use Rattle.is_rounding.specs.Clauses.{Bounds};
ghost use Rattle.next_rounding.specs.Clauses.{Small, Places, IsNumbering, CountReady, NumberReady, number_in, numbered, passes, NoneFrom, FirstFrom};

use cell_order::{nth_column, nth_row};
use is_rounding::EntryBounds;
use table::check::Accepted;

// What the arrays of a table of up to four by four are numbered by: the places of its cells, in the order in which cells are compared, and the bounds of its
// entries.
#[derive(Drop)]
pub struct Numbering {
    rows: usize,
    columns: usize,
    places: [usize; 16],
    bounds: EntryBounds,
    ghost is: { IsNumbering rows columns places bounds.low bounds.high },
}

impl Numbering {
    pub fn of(t: &Accepted) -> Numbering
        requires { Small t.now.sizes.rows t.now.sizes.columns }
        ensures rows { result.rows ≡ t.now.sizes.rows }
        ensures columns { result.columns ≡ t.now.sizes.columns }
        ensures bounds { Bounds (entry_places t.now.sizes.rows t.now.sizes.columns) t.now.sizes.denominator t.now.cells.now result.bounds.low result.bounds.high }
    {
        let s = t.sizes;
        Numbering {
            rows: s.rows,
            columns: s.columns,
            places: places(s.rows, s.columns),
            bounds: EntryBounds::of(t.cells, s.rows, s.columns, s.denominator),
        }
    }

    // The number of an array.
    pub fn number(&self, array: &[u16]) -> u32
        requires { NumberReady self.now.rows self.now.columns self.now.bounds.low array.now }
        ensures { result ≡ number_in self.now.rows self.now.columns self.now.bounds.low array.now }
    {
        let mut x: u32 = 0;
        for p in &self.places[..self.rows * self.columns] {
            x = 2 * x + (u32::from(array[*p]) - self.bounds.low[*p]);
        }
        x
    }

    // Writes the array with a number.
    pub fn write_array(&self, x: u32, counts: &mut [u16])
        requires { self.now.rows * self.now.columns ≤ length counts.old }
        ensures { counts.new ≡ written (numbered self.now.rows self.now.columns self.now.bounds.low x) counts.old }
    {
        let cells = self.rows * self.columns;
        for (i, p) in self.places[..cells].iter().enumerate() {
            counts[*p] = count(self.bounds.low[*p], x, cells - 1 - i);
        }
    }

    // The first number from `from` on whose array lies between the bounds.
    pub fn first_from(&self, from: u32) -> Option<u32>
        ensures { let test = passes self.now.rows self.now.columns self.now.bounds.low self.now.bounds.high in
            let end = 2 ^ (self.now.rows * self.now.columns) in
            MatchOption result (NoneFrom test from end) (FirstFrom test from end) }
    {
        let cells = self.rows * self.columns;
        let end = 1u32 << (cells as u32);
        let mut counts = [0u16; 16];
        for x in from..end {
            self.write_array(x, &mut counts);
            if self.bounds.hold(&counts[..cells], self.rows, self.columns) {
                return Some(x);
            }
        }
        None
    }
}

// The places of the cells of a table, in the order in which cells are compared.
fn places(rows: usize, columns: usize) -> [usize; 16]
    requires { Small rows columns }
    ensures { Places rows columns result }
{
    let mut places = [0usize; 16];
    // stays: with `iter_mut().enumerate()` over a part of the array the proof did not close
    for i in 0..rows * columns {
        places[i] = nth_row(rows, columns, i) * columns + nth_column(rows, columns, i);
    }
    places
}

// A count rounded down, with a digit of a number added, counted from the lowest.
fn count(low: u32, x: u32, place: usize) -> u16
    requires { CountReady low place }
    ensures { result ≡ low + x / 2 ^ place % 2 }
{
    (low + (x >> (place as u32)) % 2) as u16
}
