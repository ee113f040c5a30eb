// Bytes written into a lent buffer from a place on. Each function returns the place after them.
// stays: buffer and place stand side by side, since `Wrote`, by which `plan_text::output` says what is printed, takes both
ghost use Rattle.std.specs.Prelude.{[], ◌∷◌, ◌++◌, ◌+◌, ◌≤◌, length};
ghost use Rattle.printing.specs.Lines.{decimal};
ghost use Rattle.printing.specs.Clauses.{Room, gap_before};
ghost use Rattle.printing.specs.Write.{Wrote};

pub fn put_byte(out: &mut [u8], at: usize, b: u8) -> usize
    requires { at + 1 ≤ length out.old }
    ensures { Wrote out.old at (b ∷ []) out.new result }
{
    out[at] = b;
    at + 1
}

pub fn put_bytes(out: &mut [u8], at: usize, s: &[u8]) -> usize
    requires { Room out.old at s.now }
    ensures { Wrote out.old at s.now out.new result }
{
    let end = at + s.len();
    out[at..end].copy_from_slice(s);
    end
}

// A number in base ten.
// stays: a formatter over a lent buffer would be longer than these lines
pub fn put_decimal(out: &mut [u8], at: usize, x: u64) -> usize
    requires { Room out.old at (decimal x) }
    ensures { Wrote out.old at (decimal x) out.new result }
{
    if x < 10 {
        return put_byte(out, at, b'0' + x as u8);
    }
    let end = put_decimal(out, at, x / 10);
    put_byte(out, end, b'0' + (x % 10) as u8)
}

// The number at place i of a line: the first has no space before it.
pub fn put_number(out: &mut [u8], at: usize, i: usize, x: u64) -> usize
    requires { Room out.old at (gap_before i ++ decimal x) }
    ensures { Wrote out.old at (gap_before i ++ decimal x) out.new result }
{
    if i == 0 {
        return put_decimal(out, at, x);
    }
    let end = put_byte(out, at, b' ');
    put_decimal(out, end, x)
}
