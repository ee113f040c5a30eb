// What a plan that is laid out holds: its table, and the weight and the counts of each array.
#![tactic(auto)]

ghost use Rattle.std.specs.Prelude.{◌≡◌, ◌+◌, ◌*◌, ◌<◌, ◌≤◌, ℕ, false, length, get_or, MatchOption};
ghost use Rattle.base.specs.Buffers.{written};
ghost use Rattle.weighted_arrays.specs.Plan.{array_at};
ghost use Rattle.form.specs.Form.{decode, laid_out};
ghost use Rattle.reading.specs.Clauses.{Sized};

use byte_numbers::read::{four, two};
use form::Sizes;
use form::layout::{amount, laid_out, offset, sizes};

// A plan that is laid out: its bytes, and the sizes that its head says.
#[derive(Clone, Copy)]
pub struct LaidOut<'a> {
    pub bytes: &'a [u8],
    pub sizes: Sizes,
    pub ghost laid_out: { Sized sizes bytes.now },
}

impl<'a> LaidOut<'a> {
    // The plan that the bytes hold, if they are laid out.
    pub fn new(bytes: &'a [u8]) -> Option<LaidOut<'a>>
        ensures { MatchOption result (laid_out bytes.now ≡ false) (λ p. p.bytes.now ≡ bytes.now) }
    {
        if !laid_out(bytes) {
            return None;
        }
        Some(LaidOut {
            bytes,
            sizes: sizes(bytes),
        })
    }

    // Reads the cells of the table.
    pub fn read_table(&self, cells: &mut [u32])
        requires { self.now.sizes.rows * self.now.sizes.columns ≤ length cells.old }
        ensures { cells.new ≡ written (decode self.now.bytes.now).cells cells.old }
    {
        let bytes = self.bytes;
        let body = offset(bytes, 0);
        let count = self.sizes.rows * self.sizes.columns;
        fill_by(
            &mut cells[..count],
            |i: usize| -> u32
                requires { body + 4 * i + 4 ≤ length bytes.now }
            { four(bytes, body + 4 * i) },
        );
    }

    // The weight of array k, counted from 0.
    pub fn weight(&self, k: usize) -> u32
        requires { k < self.now.sizes.arrays }
        ensures { result ≡ (array_at (decode self.now.bytes.now).arrays k).weight }
    {
        amount(self.bytes, k + 1)
    }

    // Reads the counts of array k, counted from 0: its body begins where its entry of the contents points.
    pub fn read_array(&self, k: usize, counts: &mut [u16])
        requires there { k < self.now.sizes.arrays }
        requires room { self.now.sizes.rows * self.now.sizes.columns ≤ length counts.old }
        ensures { counts.new ≡ written (array_at (decode self.now.bytes.now).arrays k).counts counts.old }
    {
        let bytes = self.bytes;
        let body = offset(bytes, k + 1);
        let count = self.sizes.rows * self.sizes.columns;
        fill_by(
            &mut counts[..count],
            |i: usize| -> u16
                requires { body + 2 * i + 2 ≤ length bytes.now }
            { two(bytes, body + 2 * i) },
        );
    }
}

// Fills a slice with what a function gives of each place.
fn fill_by<T: Copy, F: Fn(usize) -> T>(slots: &mut [T], value: F)
    requires { (i : ℕ) → i < length slots.old → F.pre value i }
    ensures { (i : ℕ) (d : T) → i < length slots.new → F.post value i (get_or slots.new i d) }
{
    for (i, slot) in slots.iter_mut().enumerate() {
        *slot = value(i);
    }
}
