// A table's entries rounded down and up, and counts from them.
ghost use Rattle.std.specs.Prelude.{◌≡◌, ◌+◌, ◌≤◌};
ghost use Rattle.base.specs.Lists.{tabulate};
ghost use Rattle.table.specs.Clauses.{max_entry};
ghost use Rattle.first_rounding.specs.Clauses.{QuotientsReady, Quotients, taken_off, TotalsReady, Overwritten, CountsReady, count_at};

use crate::line::Line;
use table::whole::divide;

// The entries over w, rounded down and up, and their gaps.
// stays: three arrays, since whoever calls keeps the first for the limits, while the others end with the rounding
pub fn quotients(
    e: &[u64; 169],
    w: u64,
    low: &mut [u64; 169],
    high: &mut [u64; 169],
    cap: &mut [u8; 169],
)
    requires { QuotientsReady w e.now low.old high.old cap.old }
    ensures { Quotients w e.now low.new high.new cap.new }
{
    // stays: three arrays are written by one number
    for k in 0..169 {
        let d = divide(e[k], w);
        low[k] = d.whole;
        high[k] = d.whole + u64::from(d.gap);
        cap[k] = d.gap;
    }
}

// The count of a cell or of the grand total: the bit is added to the entry rounded down.
fn count(low: u64, bit: u8) -> u64
    requires { low ≤ max_entry + 1 }
    ensures { result ≡ low + bit }
{
    low + u64::from(bit)
}

// The counts of the first twelve places of a line, which are totals: the bit is taken off the entry rounded up.
fn totals(high: &[u64; 169], bits: &[u8; 169], n: &mut [u64; 169], line: Line)
    requires { TotalsReady high.now bits.now n.old line.start line.step }
    ensures { Overwritten (taken_off high.now bits.now) line.start line.step n.old n.new 12 }
{
    // stays: the places of a line are a step apart
    for i in 0..12 {
        let at = line.place(i);
        n[at] = high[at] - u64::from(bits[at]);
    }
}

// The counts of all entries. The loop has no branches, so that it goes through several places at once; the totals are then stored over what it left.
pub fn counts(low: &[u64; 169], high: &[u64; 169], bits: &[u8; 169], n: &mut [u64; 169])
    requires { CountsReady low.now high.now bits.now n.old }
    ensures { n.new ≡ tabulate 169 (count_at low.now high.now bits.now) }
{
    for (k, x) in n.iter_mut().enumerate() {
        *x = count(low[k], bits[k]);
    }
    let rows = Line {
        start: 12,
        step: 13,
    };
    let columns = Line {
        start: 156,
        step: 1,
    };
    totals(high, bits, n, rows);
    totals(high, bits, n, columns);
}
