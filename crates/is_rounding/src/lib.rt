// Whether an array is a controlled rounding of a table: of the table the bounds of its entries, which are found once, and of an array the sums between them.
#![tactic(auto)]

ghost use Rattle.std.specs.Prelude.{◌≡◌, map, length};
ghost use Rattle.table.specs.Table.{places, total, entry_places};
ghost use Rattle.table.specs.Clauses.{Reach};
ghost use Rattle.is_rounding.specs.Rounding.{two_ways, is_rounding};
ghost use Rattle.is_rounding.specs.Examples.{candidates, rounds_table};
ghost use Rattle.is_rounding.specs.Clauses.{line_places, cell_lines, row_lines, column_lines, grand_lines, BoundsReady, KindReady, BoundsFrom, Bounds, between, lines_between, entries_between, KindHeld, Counts};

use table::check::Accepted;
use table::sums::sum;
use table::whole::divide;

// Entries of one kind: `count` of them, entry l the sum over `number` places from l * `stride` on, `step` apart.
#[derive(Clone, Copy)]
pub struct Lines {
    pub count: usize,
    pub stride: usize,
    pub step: usize,
    pub number: usize,
}

impl Lines {
    // stays: four kinds, each with numbers of its own

    // The cells, each the sum over one place.
    fn cells(cells: usize) -> Lines
        ensures { result ≡ cell_lines cells }
    {
        Lines {
            count: cells,
            stride: 1,
            step: 1,
            number: 1,
        }
    }

    // The row totals.
    fn rows(rows: usize, columns: usize) -> Lines
        ensures { result ≡ row_lines rows columns }
    {
        Lines {
            count: rows,
            stride: columns,
            step: 1,
            number: columns,
        }
    }

    // The column totals.
    fn columns(rows: usize, columns: usize) -> Lines
        ensures { result ≡ column_lines rows columns }
    {
        Lines {
            count: columns,
            stride: 1,
            step: columns,
            number: rows,
        }
    }

    // The grand total, the sum over all places.
    fn grand(cells: usize) -> Lines
        ensures { result ≡ grand_lines cells }
    {
        Lines {
            count: 1,
            stride: 1,
            step: 1,
            number: cells,
        }
    }
}

// The bounds of all entries that an array is held to: cells, row totals, column totals, grand total.
#[derive(Drop)]
pub struct EntryBounds {
    pub low: [u32; 169],
    pub high: [u32; 169],
}

impl EntryBounds {
    // The entries of a table, over the denominator rounded down and up.
    // stays: `opening` would make an `Accepted` for this one call, and prove the same facts for it again
    pub fn of(cells: &[u32], rows: usize, columns: usize, denominator: u64) -> EntryBounds
        requires { BoundsReady rows columns denominator cells.now }
        ensures { Bounds (entry_places rows columns) denominator cells.now result.low result.high }
    {
        let mut bounds = EntryBounds {
            low: [0; 169],
            high: [0; 169],
        };
        bounds.fill(cells, rows, columns, denominator);
        bounds
    }

    // The same, in a place that the caller has: what is returned is copied, which a small plan's opening would spend a third of its time on.
    pub fn fill(&mut self, cells: &[u32], rows: usize, columns: usize, denominator: u64)
        requires { BoundsReady rows columns denominator cells.now }
        ensures { Bounds (entry_places rows columns) denominator cells.now self.new.low self.new.high }
    {
        let n = rows * columns;
        self.add_lines(cells, Lines::cells(n), 0, denominator);
        self.add_lines(cells, Lines::rows(rows, columns), n, denominator);
        self.add_lines(cells, Lines::columns(rows, columns), n + rows, denominator);
        self.add_lines(cells, Lines::grand(n), n + rows + columns, denominator);
    }

    // The entries of one kind of the table, over the denominator rounded down and up, from a place on.
    fn add_lines(&mut self, cells: &[u32], k: Lines, from: usize, denominator: u64)
        requires { KindReady k from denominator cells.now self.old.low self.old.high }
        ensures { BoundsFrom denominator (λ l. total cells.now (line_places k l)) from
            self.old.low self.old.high self.new.low self.new.high k.count }
    {
        // stays: an entry is found by its number, in the cells and in both bounds
        for l in 0..k.count {
            let entry = sum(cells, l * k.stride, k.step, k.number);
            let parts = divide(entry, denominator);
            self.low[from + l] = parts.whole as u32;
            self.high[from + l] = (parts.whole + u64::from(parts.gap)) as u32;
        }
    }

    // Whether each entry of an array lies between its bounds.
    #[tactic(auto, using(crate::proofs::EntryLines::all_kinds))]
    pub fn hold(&self, counts: &[u16], rows: usize, columns: usize) -> bool
        requires { Counts rows columns counts.now self.now.low self.now.high }
        ensures { result
            ≡ entries_between (entry_places rows columns) counts.now self.now.low self.now.high }
    {
        let n = rows * columns;
        self.lines_hold(counts, Lines::cells(n), 0)
            && self.lines_hold(counts, Lines::rows(rows, columns), n)
            && self.lines_hold(counts, Lines::columns(rows, columns), n + rows)
            && self.lines_hold(counts, Lines::grand(n), n + rows + columns)
    }

    // Whether each entry of one kind of an array lies between its bounds, which stand from a place on.
    // stays: how many do not is counted, so that a machine compares several at once; with `all` opening a plan takes a fifth longer
    fn lines_hold(&self, counts: &[u16], k: Lines, from: usize) -> bool
        requires { KindHeld k from counts.now self.now.low self.now.high }
        ensures { result ≡ lines_between counts.now self.now.low self.now.high k from }
    {
        let mut failed: u32 = 0;
        for l in 0..k.count {
            let x = count_sum(counts, l * k.stride, k.step, k.number);
            failed += u32::from(!between(self.low[from + l], self.high[from + l], x));
        }
        failed == 0
    }
}

// The sum of `number` counts from `start` on, `step` apart.
fn count_sum(counts: &[u16], start: usize, step: usize, number: usize) -> u32
    requires { Reach start step number (length counts.now) }
    ensures { result ≡ total counts.now (places start step number) }
{
    let mut s: u32 = 0;
    // stays: the places are a step apart
    for k in 0..number {
        s += u32::from(counts[start + k * step]);
    }
    s
}

// Whether a number is from a low one to a high one.
fn between(low: u32, high: u32, x: u32) -> bool
    ensures { result ≡ between low high x }
{
    low <= x && x <= high
}

// Whether an array is a controlled rounding of an accepted table.
pub fn is_rounding(t: &Accepted, counts: &[u16]) -> bool
    ensures { result ≡ is_rounding (two_ways t.now.sizes.rows t.now.sizes.columns) t.now.sizes.denominator t.now.cells.now counts.now }
{
    let s = t.sizes;
    counts.len() == t.cells.len()
        && EntryBounds::of(t.cells, s.rows, s.columns, s.denominator).hold(
            counts, s.rows, s.columns,
        )
}

// The literal cases are as stated: arrays that are controlled roundings, and for each entry one that breaks it alone.
pub fn claims()
    ensures candidates { map rounds_table candidates ≡ map (λ x. x.rounds) candidates }
{}
