// The division of an entry that is not below zero by a weight, on which rounding, limits, opening, reasons and variances rest.
ghost use Rattle.table.specs.Clauses.{Dividable, Divides};

// An entry over a weight: rounded down, what is left over, and 1 where that is not 0, else 0.
#[derive(Clone, Copy)]
pub struct Divided {
    pub whole: u64,
    pub rest: u64,
    // stays: a number, since it is added
    pub gap: u8,
}

// Divides an entry by a weight, by the one division of numbers of either sign.
pub fn divide(entry: u64, weight: u64) -> Divided
    requires { Dividable weight entry }
    ensures { Divides weight entry result }
{
    let d = division::divide(entry as i64, weight);
    Divided {
        whole: d.whole as u64,
        rest: d.rest,
        gap: u8::from(d.rest != 0),
    }
}
