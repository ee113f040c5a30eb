// The lines of a grid.
ghost use Rattle.std.specs.Prelude.{◌≡◌, ◌+◌, ◌*◌, ◌≤◌, ◌<◌};
ghost use Rattle.first_rounding.specs.Clauses.{line_sum, LineFits};

// The thirteen places of a line, `step` apart: twelve, and that of their total.
#[derive(Clone, Copy)]
pub struct Line {
    pub start: usize,
    pub step: usize,
    ghost step_small: { step ≤ 13 },
    ghost inside: { start + 12 * step < 169 },
}

impl Line {
    // The k-th place, from 0.
    pub fn place(self, k: usize) -> usize
        requires { k ≤ 12 }
        ensures place { result ≡ self.start + k * self.step }
        ensures inside { result < 169 }
    {
        self.start + k * self.step
    }

    // The sum of the first twelve numbers.
    pub fn sum(self, l: &[u64; 169]) -> u64
        requires { LineFits l.now self.start self.step }
        ensures { result ≡ line_sum l.now self.start self.step }
    {
        let mut sum = 0;
        // stays: the places are a step apart
        for k in 0..12 {
            sum += l[self.place(k)];
        }
        sum
    }
}
