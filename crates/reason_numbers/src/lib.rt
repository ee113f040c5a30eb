// Which entry set a weight, as four numbers that are written to a lent buffer.
#![tactic(auto)]

ghost use Rattle.std.specs.Prelude.{◌≡◌, List, map, ℕ, ◌≤◌, length};
ghost use Rattle.base.specs.Buffers.{written};
ghost use Rattle.refusals.specs.Answer.{answer_number};
ghost use Rattle.refusals.specs.Due.{answer_of, Answers};
ghost use Rattle.reasons.specs.Call.{reason_answer};
ghost use Rattle.reason_numbers.specs.Numbers.{direction_number, entry_numbers, reason_numbers, reply_number, reply_refusal};
ghost use Rattle.reason_numbers.specs.Examples.{calls, replied, said};

use base::write::write_four;
use reasons::{Direction, Entry, reason};
use refusals::Refusal;

// The number of a direction.
// stays: numbers, for the C interface
fn direction_number(direction: Direction) -> u32
    ensures { result ≡ direction_number direction }
{
    match direction {
        Direction::AllWhole => 0,
        Direction::Down => 1,
        Direction::Up => 2,
    }
}

// The numbers of an entry: its kind, its row and its column, 0 where the kind has none.
fn entry_numbers(entry: Entry) -> [u32; 3]
    ensures { result ≡ entry_numbers entry }
{
    match entry {
        Entry::Cell(i, j) => [1, i, j],
        Entry::RowTotal(i) => [2, i, 0],
        Entry::ColumnTotal(j) => [3, 0, j],
        Entry::GrandTotal => [4, 0, 0],
    }
}

// Writes the four numbers of the reason of an array's weight, or returns the first refusal that applies.
pub fn write_reason(
    rows: u32,
    columns: u32,
    denominator: u32,
    cells: &[u32],
    array: u32,
    reply: &mut [u32],
) -> Result<(), Refusal>
    ensures { Answers (reply_refusal rows columns denominator cells.now array (length reply.old))
        (written (reason_numbers (reason_answer rows columns denominator cells.now array)) reply.old)
        reply.old result reply.new }
{
    let found = reason(rows, columns, denominator, cells, array)?;
    if reply.len() < 4 {
        return Err(Refusal::Buffer);
    }
    let [kind, row, column] = entry_numbers(found.entry);
    write_four(kind, row, column, direction_number(found.direction), reply);
    Ok(())
}

// With room for four numbers the call returns the number of the reply, whatever the table; and the literal calls are as stated.
pub fn claims()
    ensures numbers { (r c d : ℕ) (g : List ℕ) (k room : ℕ) → 4 ≤ room
        → answer_number (answer_of (reply_refusal r c d g k room)) ≡ reply_number (reason_answer r c d g k) }
    ensures calls { map replied calls ≡ map said calls }
{}
