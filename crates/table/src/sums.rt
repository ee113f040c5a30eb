// Sums of cells.
ghost use Rattle.std.specs.Prelude.{◌≡◌, length};
ghost use Rattle.table.specs.Table.{places, total};
ghost use Rattle.table.specs.Clauses.{Reach};

// The sum of `count` cells from `start` on, `step` apart.
// stays: `is_rounding` adds counts of 16 bits into 32; a trait for a number's value and its bound, for both, would be longer than the two loops
pub fn sum(cells: &[u32], start: usize, step: usize, count: usize) -> u64
    requires { Reach start step count (length cells.now) }
    ensures { result ≡ total cells.now (places start step count) }
{
    let mut s: u64 = 0;
    // stays: the places are a step apart
    for k in 0..count {
        s += u64::from(cells[start + k * step]);
    }
    s
}
