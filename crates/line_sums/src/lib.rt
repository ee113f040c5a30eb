// Which matrix of 0 and 1 with given line sums comes first?
#![tactic(auto)]

ghost use Rattle.line_sums.specs.Clauses.{Asked, FirstMatrix};

use crate::fill::{Lack, fill};
use crate::places::{AllPlaces, free_places};
use paths::FreePlaces;

mod fill;
mod fixing;
mod places;

// The first matrix of 0 and 1, in row order of its cells, that is at most `cap` and has the given line sums.
pub fn first(cap: &[u8; 169], rows: &[u8; 13], cols: &[u8; 13]) -> [u8; 169]
    requires { Asked cap.now rows.now cols.now }
    ensures { FirstMatrix cap.now rows.now cols.now result }
{
    let mut free = FreePlaces {
        up: free_places(cap),
        down: [0; 13],
    };
    let mut lack = Lack::new(cols);
    fill(&mut free, &mut lack, rows);
    let mut places = AllPlaces { free, one: [0; 13] };
    places.fix_all();
    places.bytes()
}
