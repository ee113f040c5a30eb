// An opened plan as a view over the lent bytes. Thin readers over functions on the slice and plain numbers.
#![tactic(auto)]

ghost use Rattle.std.specs.Prelude.{◌≡◌, List, Result, map, ℕ};
ghost use Rattle.table.specs.Check.{up_to};
ghost use Rattle.form.specs.declared.Sizes.{Sizes};
ghost use Rattle.opening.specs.Open.{Opens, open_answer};
ghost use Rattle.view.specs.View.{has_cell, weight_answer, count_answer, Readers};
ghost use Rattle.view.specs.Examples.{summaries, summaries_found, weights, weights_found, places, count_found};

use crate::find::{find_count, find_weight};
use form::Sizes;
use opening::open::open;
use refusals::Refusal;
use table::Table;

pub mod find;

// A view over the lent bytes, with what opening them finds: the sizes, or the refusal.
#[derive(Clone, Copy)]
pub struct View<'a> {
    pub bytes: &'a [u8],
    pub found: Result<Sizes, Refusal>,
}

// Whether the plan has an array k, from 1 on.
fn has_array(s: Sizes, k: usize) -> bool
    ensures { result ≡ up_to s.arrays k }
{
    (1..=s.arrays).contains(&k)
}

// Whether the table has a row p and a column q, from 0 on.
fn has_cell(s: Sizes, p: usize, q: usize) -> bool
    ensures { result ≡ has_cell s p q }
{
    p < s.rows
        && p < Table::MAX_ROWS as usize
        && q < s.columns
        && s.columns <= Table::MAX_COLUMNS as usize
}

// The view of a plan.
pub fn view_of<'a>(plan: &'a [u8]) -> View<'a>
    ensures { (result.bytes ≡ plan.entry) × (result.found ≡ open_answer plan.now) }
{
    View {
        bytes: plan,
        found: open(plan),
    }
}

// The weight of array k, from 1 on.
pub fn weight<'a>(v: View<'a>, k: usize) -> Option<u32>
    ensures { result ≡ weight_answer v.entry.bytes.now v.entry.found k }
{
    let Ok(s) = v.found else {
        return None;
    };
    if !has_array(s, k) {
        return None;
    }
    find_weight(v.bytes, k)
}

// The count of array k, from 1 on, in row p and column q, from 0 on.
pub fn count<'a>(v: View<'a>, k: usize, p: usize, q: usize) -> Option<u32>
    ensures { result ≡ count_answer v.entry.bytes.now v.entry.found k p q }
{
    let Ok(s) = v.found else {
        return None;
    };
    if !has_array(s, k) {
        return None;
    }
    if !has_cell(s, p, q) {
        return None;
    }
    find_count(v.bytes, k, p * s.columns + q)
}

// On bytes that open, a view's readers find every weight and count; and the literal cases are as stated.
pub fn claims()
    ensures readers { (b : List ℕ) → Opens b → Readers b }
    ensures summaries { summaries_found ≡ summaries }
    ensures weights { weights_found ≡ weights }
    ensures counts { map count_found places ≡ map (λ x. x.count) places }
{}
