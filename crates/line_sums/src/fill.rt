// A matrix with given line sums, where a fractional one exists.
ghost use Rattle.std.specs.Prelude.{◌≡◌, ◌-◌, ◌*◌, get_or, set};
ghost use Rattle.sets.specs.Clauses.{ind};
ghost use Rattle.line_sums.specs.Clauses.{Lacking, LacksOne, RowReady, FillReady, FilledBy};

use paths::FreePlaces;
use sets::{nonzero, without};

// How many are still to come in each column, and the columns that lack something.
#[derive(Clone, Copy)]
pub struct Lack {
    left: [u8; 13],
    columns: u32,
    ghost lacking: { Lacking left columns },
}

impl Lack {
    // As many as `cols` says.
    pub fn new(cols: &[u8; 13]) -> Lack
        ensures { result.left ≡ cols.now }
    {
        Lack {
            left: *cols,
            columns: nonzero(cols, 0),
        }
    }

    // One less in `column`.
    pub fn take(&mut self, column: usize)
        requires { LacksOne self.old.left column }
        ensures { self.new.left ≡ set self.old.left column (get_or self.old.left column 0 - 1) }
    {
        let left = self.left[column] - 1;
        self.left[column] = left;
        if left == 0 {
            self.columns = without(self.columns, column);
        }
    }
}

// `more` more in `row`, each in a column that lacks one.
pub fn fill_row(free: &mut FreePlaces, lack: &mut Lack, row: usize, more: u8)
    requires { RowReady free.old lack.old.left row more }
    ensures { FilledBy free.old lack.old.left free.new lack.new.left (λ p. more * ind p row) }
{
    for _k in 0..more {
        let column = free.augment(lack.columns, row).unwrap();
        lack.take(column);
    }
}

// As many more in each row as `more` says, and in each column as many as its lack falls by. The last row, that of the totals, comes first.
pub fn fill(free: &mut FreePlaces, lack: &mut Lack, more: &[u8; 13])
    requires { FillReady free.old lack.old.left more.now }
    ensures { FilledBy free.old lack.old.left free.new lack.new.left (λ p. get_or more.now p 0) }
{
    // stays: the rows go by their numbers, from the last to the first
    for row in (0..13).rev() {
        fill_row(free, lack, row, more[row]);
    }
}
