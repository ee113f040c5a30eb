// One round of the plan.
ghost use Rattle.std.specs.Prelude.{◌≡◌, ◌+◌, ◌≤◌, ◌<◌};
ghost use Rattle.table.specs.Table.{max_denominator};
ghost use Rattle.grid.specs.Clauses.{grid_of};
ghost use Rattle.planning.specs.Clauses.{HoldsTable, NextReady, NextArray, RoundReady, Lost, RoundDone};

use crate::limits::{limits, lose, smallest};
use first_rounding::round_grid;
use grid::entries;
use table::check::Accepted;

// The next array n of a remaining table with entries e over w, the limits l of its entries, and its weight.
pub fn next_array(e: &[u64; 169], w: u64, n: &mut [u64; 169], l: &mut [u64; 169]) -> u64
    requires { NextReady w e.now n.old l.old }
    ensures { NextArray w e.now n.new l.new result }
{
    let mut q = [0u64; 169];
    round_grid(e, w, &mut q, n);
    limits(w, e, &q, n, l);
    smallest(l)
}

// The next array n and its weight; e is then what is left.
pub fn one_round(e: &mut [u64; 169], w: u64, n: &mut [u64; 169]) -> u64
    requires { RoundReady w e.old n.old }
    ensures round { RoundDone w e.old n.new result e.new }
    ensures lost { Lost result e.old n.new e.new }
{
    let mut l = [0u64; 169];
    let x = next_array(e, w, n, &mut l);
    lose(x, n, e);
    x
}

// What is left of a table: the entries, and the weight that they are over.
#[derive(Clone, Copy)]
pub struct Remaining {
    pub rows: usize,
    pub columns: usize,
    pub entries: [u64; 169],
    pub weight: u64,
    pub ghost table: { HoldsTable rows columns entries },
    pub ghost small: { weight ≤ max_denominator },
}

impl Remaining {
    // Before the first round all of the table is left.
    pub fn of(t: &Accepted) -> Remaining
        ensures rows { result.rows ≡ t.now.sizes.rows }
        ensures columns { result.columns ≡ t.now.sizes.columns }
        ensures entries { result.entries ≡ grid_of t.now.sizes.rows t.now.sizes.columns t.now.cells.now }
        ensures weight { result.weight ≡ t.now.sizes.denominator }
    {
        Remaining {
            rows: t.sizes.rows,
            columns: t.sizes.columns,
            entries: entries(t.sizes, t.cells),
            weight: t.sizes.denominator,
        }
    }

    // The next array n, the limits l of the entries, and its weight.
    pub fn next_array(&self, n: &mut [u64; 169], l: &mut [u64; 169]) -> u64
        requires { 0 < self.now.weight }
        ensures { NextArray self.now.weight self.now.entries n.new l.new result }
    {
        next_array(&self.entries, self.weight, n, l)
    }

    // The next array n and its weight, which are then taken off.
    pub fn one_round(&mut self, n: &mut [u64; 169]) -> u64
        requires { 0 < self.old.weight }
        ensures round { RoundDone self.old.weight self.old.entries n.new result self.new.entries }
        ensures weight { self.new.weight + result ≡ self.old.weight }
        ensures rows { self.new.rows ≡ self.old.rows }
        ensures columns { self.new.columns ≡ self.old.columns }
    {
        let x = one_round(&mut self.entries, self.weight, n);
        self.weight -= x;
        x
    }
}
