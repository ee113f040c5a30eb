// For each line of the grid its need: how many of its bits are 1.
ghost use Rattle.std.specs.Prelude.{◌≡◌, ◌+◌, ◌*◌, get_or};
ghost use Rattle.first_rounding.specs.Clauses.{line_sum, CellsFit, TotalsFit, LinesFit, Needs};

use crate::line::Line;

// The need of a line of cells: its total rounded up, less the cells rounded down.
fn need_cells(low: &[u64; 169], high: &[u64; 169], line: Line) -> u8
    requires { CellsFit low.now high.now line.start line.step }
    ensures { result + line_sum low.now line.start line.step ≡ get_or high.now (line.start + 12 * line.step) 0 }
{
    (high[line.place(12)] - line.sum(low)) as u8
}

// The need of the line of totals: the totals rounded up, less the grand total rounded down.
fn need_totals(low: &[u64; 169], high: &[u64; 169], line: Line) -> u8
    requires { TotalsFit low.now high.now line.start line.step }
    ensures { result + get_or low.now (line.start + 12 * line.step) 0 ≡ line_sum high.now line.start line.step }
{
    (line.sum(high) - low[line.place(12)]) as u8
}

// The needs of the lines that are `next` apart, twelve of cells and one of totals.
pub fn needs(low: &[u64; 169], high: &[u64; 169], next: usize, step: usize) -> [u8; 13]
    requires { LinesFit low.now high.now next step }
    ensures { Needs low.now high.now next step result }
{
    let mut n = [0; 13];
    // stays: a line begins where its number says
    for i in 0..12 {
        let line = Line {
            start: i * next,
            step,
        };
        n[i] = need_cells(low, high, line);
    }
    let line = Line {
        start: 12 * next,
        step,
    };
    n[12] = need_totals(low, high, line);
    n
}
