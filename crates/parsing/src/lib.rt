// Parsing a text: the numbers in it.
#![tactic(auto)]

ghost use Rattle.std.specs.Prelude.{◌≡◌, true, map, ◌+◌, ◌-◌, ◌*◌, ◌<◌, ◌≤◌, MatchOption};
ghost use Rattle.parsing.specs.Text.{max_text, max_number, is_digit, parse};
ghost use Rattle.parsing.specs.Clauses.{parsed_of};
ghost use Rattle.parsing.specs.Examples.{parses};

// A text has at most this many bytes.
pub const MAX_TEXT: usize = 4096;

// A number of a text is at most this.
pub const MAX_NUMBER: u64 = 4294967295;

// The numbers of a text: how many they are, and they themselves, with zeros after them. 4,096 bytes hold at most 2,048.
// stays: a count beside an array, since no memory may be allocated
#[derive(Clone, Copy)]
pub struct Numbers {
    pub count: usize,
    pub numbers: [u32; 2048],
}

// A number with one digit more; none where it is above the highest.
fn with_digit(n: u32, b: u8) -> Option<u32>
    requires { is_digit b ≡ true }
    ensures { MatchOption result
        (max_number < n * 10 + (b - 48))
        (λ r. (r ≡ n * 10 + (b - 48)) × (r ≤ max_number)) }
{
    let n = u64::from(n) * 10 + u64::from(b - b'0');
    if MAX_NUMBER < n { None } else { Some(n as u32) }
}

// The numbers of a text. While digits are read, `reading`, their number so far stands at `count`.
pub fn parse(text: &[u8]) -> Option<Numbers>
    ensures { result ≡ parsed_of (parse text.now) }
{
    if MAX_TEXT < text.len() {
        return None;
    }
    let mut numbers = [0; 2048];
    let mut count = 0;
    let mut reading = false;
    for b in text {
        match *b {
            b'0'..=b'9' => {
                numbers[count] = with_digit(numbers[count], *b)?;
                reading = true;
            }
            b' ' | b'\n' => {
                count += usize::from(reading);
                reading = false;
            }
            _ => return None,
        }
    }
    count += usize::from(reading);
    if count < 3 {
        return None;
    }
    Some(Numbers { count, numbers })
}

// The constants of the code are the bounds of the definitions.
pub fn bounds()
    ensures text { MAX_TEXT ≡ max_text }
    ensures number { MAX_NUMBER ≡ max_number }
{}

// The literal texts are parsed as stated.
pub fn claims()
    ensures { map (λ p. parse p.text) parses ≡ map (λ p. p.numbers) parses }
{}
