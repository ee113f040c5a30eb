// Between a grid of bytes, in row order, and sets of places.
ghost use Rattle.std.specs.Prelude.{◌≡◌, ◌+◌, ◌*◌, ◌<◌};
ghost use Rattle.sets.specs.Clauses.{on};
ghost use Rattle.line_sums.specs.Clauses.{Places, Caps, FreeOf, BitReady, WriteReady, BytesOf};

use paths::FreePlaces;
use sets::{member, nonzero};

// The places of a matrix: those that are free, and for each row the columns whose place is fixed at 1.
#[derive(Clone, Copy)]
pub struct AllPlaces {
    pub free: FreePlaces,
    pub one: [u32; 13],
    pub ghost single: { Places free.up free.down one },
}

// For each row the columns where `cap` is 1.
pub fn free_places(cap: &[u8; 169]) -> [u32; 13]
    requires { Caps cap.now }
    ensures { FreeOf cap.now result }
{
    let mut up = [0; 13];
    // stays: no plainer with `from_fn`, which would want one law more, for what is said by a relation
    for p in 0..13 {
        up[p] = nonzero(cap, p * 13);
    }
    up
}

// The bit of a place: 1 where it is free and 1, or fixed at 1.
pub fn bit_of(down: u32, row: usize, one: u32, column: usize) -> u8
    requires { BitReady down row one column }
    ensures { result ≡ on down row + on one column }
{
    (member(down, row) + member(one, column)) as u8
}

impl AllPlaces {
    // Writes a row of the matrix after those before it.
    pub fn write_row(&self, row: usize, b: &mut [u8; 169])
        requires { WriteReady self.now.free.down self.now.one row b.old }
        ensures { BytesOf self.now.free.down self.now.one (row * 13 + 13) b.new }
    {
        let fixed = self.one[row];
        // stays: a column is looked up by its number in each of three
        for q in 0..13 {
            b[row * 13 + q] = bit_of(self.free.down[q], row, fixed, q);
        }
    }

    // The matrix, as bytes.
    pub fn bytes(&self) -> [u8; 169]
        ensures { BytesOf self.now.free.down self.now.one 169 result }
    {
        let mut b = [0; 169];
        for p in 0..13 {
            self.write_row(p, &mut b);
        }
        b
    }
}
