// Campaign records, and whether one fits a plan.
#![tactic(auto)]

ghost use Rattle.std.specs.Prelude.{◌≡◌, map};
ghost use Rattle.records.specs.Record.{max_rounds, within, fits};
ghost use Rattle.records.specs.Examples.{rows};

pub mod fit;
mod tally;

// The part of a campaign record that is no buffer: the count of numbers taken, and the rounds completed.
// stays: bits and tally are slices beside it, as C hands them (`lufodimi_start`, `lufodimi_campaign_draw`)
#[repr(C)]
#[derive(Clone, Copy, Debug, PartialEq, Eq)]
pub struct Record {
    pub taken: u32,
    pub rounds: u16,
}

impl Record {
    // Whether a campaign over this denominator can stand at this count and these rounds.
    #[tactic(auto, unfolding(crate::specs::Record::within))]
    fn within(self, denominator: u32) -> bool
        ensures { result ≡ within denominator self.taken self.rounds }
    {
        self.rounds <= MAX_ROUNDS
            && self.taken < denominator
            && (self.rounds < MAX_ROUNDS || self.taken == 0)
    }
}

// A campaign has at most so many rounds.
pub const MAX_ROUNDS: u16 = 1000;

// The constant of the code is the bound of the definitions; and the literal cases are as stated: records that fit, in the first rounds, in the last and after
// them, and each way not to.
pub fn claims()
    ensures rounds { MAX_ROUNDS ≡ max_rounds }
    ensures rows { map (λ r. fits r.plan r.given) rows ≡ map (λ r. r.fits) rows }
{}
