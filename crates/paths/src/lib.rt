// The search for an alternating path, level by level, and the flip along it.
#![tactic(auto)]

ghost use Rattle.std.specs.Prelude.{◌<◌};
ghost use Rattle.paths.specs.Search.{SearchReady, SearchFound};
ghost use Rattle.paths.specs.Clauses.{Trail, FlipReady, NotBoth, Flipped, OneMore};

use sets::{meet, minus, pick, single, some, union_of, with, without};

// The free places of a matrix: `up` has for each row the columns whose place is 0, `down` for each column the rows whose place is 1.
#[derive(Clone, Copy)]
pub struct FreePlaces {
    pub up: [u32; 13],
    pub down: [u32; 13],
    pub ghost apart: { NotBoth up down },
}

// The rows and the columns that a search reaches, level by level.
#[derive(Clone, Copy)]
pub struct Reached {
    pub rows: [u32; 14],
    pub cols: [u32; 14],
}

// What a search finds: a column and its level.
#[derive(Clone, Copy)]
pub struct Found {
    pub column: usize,
    pub level: usize,
}

// Goes from row `start` to columns that can be raised, from these to rows that can be lowered, and so on, until a column of `ends` is reached:
// that column and its level, or none. Keeps the rows and the columns of each level.
// stays: both halves and no `FreePlaces`, since it asks nothing of them (`SearchReady`)
pub fn reach(
    up: &[u32; 13],
    down: &[u32; 13],
    ends: u32,
    start: usize,
    reached: &mut Reached,
) -> Option<Found>
    requires { SearchReady start reached.old }
    ensures { SearchFound up.now down.now ends start reached.new result }
{
    let mut front = single(start);
    let mut rows_left = minus(8191, front);
    let mut cols_left: u32 = 8191;
    reached.rows[0] = front;
    for level in 0..13 {
        let next = meet(union_of(up, front), cols_left);
        let hits = meet(ends, next);
        if hits != 0 {
            return Some(Found {
                column: some(hits),
                level,
            });
        }
        if next == 0 {
            return None;
        }
        cols_left = minus(cols_left, next);
        front = meet(union_of(down, next), rows_left);
        rows_left = minus(rows_left, front);
        reached.cols[level] = next;
        reached.rows[level + 1] = front;
    }
    None
}

// Flips a place: takes q out of the set p of `a`, and puts p into the set q of `b`.
pub fn flip(a: &mut [u32; 13], b: &mut [u32; 13], p: usize, q: usize)
    requires { FlipReady a.old b.old p q }
    ensures { Flipped a.old b.old a.new b.new p q }
{
    a[p] = without(a[p], q);
    b[q] = with(b[q], p);
}

impl FreePlaces {
    ghost use Rattle.paths.specs.Calls.{Augmented};

    // Goes back from the column that was found to row `start`, and raises and lowers in turn.
    pub fn flip_path(&mut self, reached: &Reached, start: usize, found: Found)
        requires { Trail self.old.up self.old.down reached.now.rows reached.now.cols start found.column found.level }
        ensures { OneMore self.old.up self.old.down self.new.up self.new.down start found.column }
    {
        let mut q = found.column;
        for level in (0..found.level).rev() {
            let p = pick(&self.up, reached.rows[level + 1], q);
            flip(&mut self.up, &mut self.down, p, q);
            q = pick(&self.down, reached.cols[level], p);
            flip(&mut self.down, &mut self.up, q, p);
        }
        flip(&mut self.up, &mut self.down, start, q);
    }

    // One more in row `start` and in a column of `ends`: that column, or none, and then all stays as it is.
    pub fn augment(&mut self, ends: u32, start: usize) -> Option<usize>
        requires { start < 13 }
        ensures { Augmented self.old self.new ends start result }
    {
        let mut reached = Reached {
            rows: [0; 14],
            cols: [0; 14],
        };
        let found = reach(&self.up, &self.down, ends, start, &mut reached)?;
        self.flip_path(&reached, start, found);
        Some(found.column)
    }
}
