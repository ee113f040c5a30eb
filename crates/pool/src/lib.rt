// The pool of two tables of one size: their expected counts added up exactly, over the least common multiple of their denominators.
#![tactic(auto)]

ghost use Rattle.std.specs.Prelude.{◌≡◌, List, map, ℕ, length, None, Some};
ghost use Rattle.refusals.specs.declared.Refusal.TheVariants.{LargeCell};
ghost use Rattle.refusals.specs.Due.{Answers};
ghost use Rattle.pool.specs.Pool.{pooling_refusal, EitherBelowZero, pool_refusal, lent, pooled_into};
ghost use Rattle.pool.specs.Promises.{Pools};
ghost use Rattle.pool.specs.Clauses.{Denominators, scale_of};
ghost use Rattle.pool.specs.Examples.{cases, pooled, said};

use crate::cells::{pooled_within, write_pooled};
use crate::check::{Pair, check_parts};
use multiples::lcm;
use refusals::Refusal;
use table::Table;

mod cells;
mod check;

// How two tables are pooled: the number of their cells, the pooled denominator, and by what the cells of the first and of the second are multiplied.
#[derive(Clone, Copy)]
pub struct Scale {
    pub cells: usize,
    pub denominator: u64,
    pub first: u64,
    pub second: u64,
}

// The scale of two accepted tables. The multiple is at most 65,535 · 65,535, and a factor at most the other denominator.
fn scale_of(p: Pair) -> Scale
    requires { Denominators p.first p.second }
    ensures { result ≡ scale_of p.cells p.first p.second }
{
    let multiple = lcm(p.first, p.second);
    Scale {
        cells: p.cells,
        denominator: multiple,
        first: multiple / p.first,
        second: multiple / p.second,
    }
}

// Writes the pooled denominator and the pooled cells of two tables, or returns the first refusal that applies. d and e are the denominators of the first
// and of the second.
pub fn pool(
    rows: u32,
    columns: u32,
    d: u32,
    first: &[u32],
    e: u32,
    second: &[u32],
    denominator: &mut [u32],
    cells: &mut [u32],
) -> Result<(), Refusal>
    ensures { Answers (pool_refusal rows columns d first.now e second.now
        (length denominator.old) (length cells.old))
        (pooled_into d first.now e second.now (lent denominator.old cells.old))
        (lent denominator.old cells.old) result (lent denominator.new cells.new) }
{
    let p = check_parts(rows, columns, d, first, e, second)?;
    let s = scale_of(p);
    if u64::from(Table::MAX_DENOMINATOR) < s.denominator {
        return Err(Refusal::Multiple);
    }
    if !pooled_within(s, first, second) {
        return Err(Refusal::PooledCell);
    }
    if denominator.is_empty() || cells.len() < s.cells {
        return Err(Refusal::Buffer);
    }
    denominator[0] = s.denominator as u32;
    write_pooled(s, first, second, cells);
    Ok(())
}

// Of every two tables that are not refused the pool is their exact sum, over the least common multiple, and an accepted table; a cell of either below zero is
// 4, where none of 1 to 3 applies; and the literal cases are as stated: equal, coprime and dividing denominators, the bounds of 11 and 12, each refusal, and each two of them at once.
pub fn claims()
    ensures pools { (r c d : ℕ) (g : List ℕ) (e : ℕ) (h : List ℕ) → pooling_refusal r c d g e h ≡ None → Pools r c d g e h }
    ensures below_zero { (r c d : ℕ) (g : List ℕ) (e : ℕ) (h : List ℕ) → EitherBelowZero r c d g e h → pooling_refusal r c d g e h ≡ Some LargeCell }
    ensures cases { map pooled cases ≡ map said cases }
{}
