// The first of the matrices with the same line sums.
ghost use Rattle.std.specs.Prelude.{◌<◌};
ghost use Rattle.line_sums.specs.Fixing.{LowerReady, PlaceFixed, CellsFixed};

use crate::places::AllPlaces;
use cell_order::{nth_column, nth_row};
use sets::{member, single, with, without};

impl AllPlaces {
    // Fixes a place that is free and 1: at 0 where that can be, else at 1.
    pub fn lower(&mut self, row: usize, column: usize)
        requires { LowerReady self.old row column }
        ensures { PlaceFixed self.old self.new row column }
    {
        self.free.down[column] = without(self.free.down[column], row);
        if self.free.augment(single(column), row).is_none() {
            self.one[row] = with(self.one[row], column);
        }
    }

    // Fixes a place, as low as can be.
    pub fn fix(&mut self, row: usize, column: usize)
        requires row { row < 13 }
        requires column { column < 13 }
        ensures { PlaceFixed self.old self.new row column }
    {
        if member(self.free.up[row], column) == 1 {
            self.free.up[row] = without(self.free.up[row], column);
            return;
        }
        if member(self.free.down[column], row) == 1 {
            self.lower(row, column);
        }
    }

    // Fixes the 12 by 12 cells, in the order in which cells are compared.
    pub fn fix_all(&mut self)
        ensures { CellsFixed self.old self.new 144 }
    {
        for n in 0..144 {
            self.fix(nth_row(12, 12, n), nth_column(12, 12, n));
        }
    }
}
