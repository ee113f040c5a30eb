// The smallest and the largest covariance of two different cells of a plan, as numerators over D·D.
#![tactic(auto)]

ghost use Rattle.std.specs.Prelude.{◌≡◌, min, max};
ghost use Rattle.covariances.specs.Covariance.{lift};

pub mod pairs;
mod sums;

// The covariances of the code are lifted by this, the largest product of two cells, so that none is below zero.
pub const LIFT: u64 = 4294836225000000;

// The smallest and the largest of some numbers.
#[derive(Clone, Copy)]
pub struct Extremes {
    pub low: u64,
    pub high: u64,
}

impl Extremes {
    // These, and one number more.
    fn with(self, z: u64) -> Extremes
        ensures low { result.low ≡ min self.low z }
        ensures high { result.high ≡ max self.high z }
    {
        Extremes {
            low: self.low.min(z),
            high: self.high.max(z),
        }
    }
}

// The constants of the code are the bounds of the definitions.
pub fn bounds()
    ensures lift { LIFT ≡ lift }
{}
