// Numbers in a slice of bytes, low byte first.
// stays: one function a width, since a number of each width has a type of its own and each is one line of std's
ghost use Rattle.std.specs.Prelude.{◌≡◌, ◌+◌, ◌≤◌, length};
ghost use Rattle.byte_numbers.specs.Bytes.{number};

// The byte at a place.
pub fn one(s: &[u8], at: usize) -> u8
    requires { at + 1 ≤ length s.now }
    ensures { result ≡ number 1 s.now at }
{
    s[at]
}

// The number in the two bytes from a place on.
pub fn two(s: &[u8], at: usize) -> u16
    requires { at + 2 ≤ length s.now }
    ensures { result ≡ number 2 s.now at }
{
    u16::from_le_bytes([s[at], s[at + 1]])
}

// The number in the four bytes from a place on.
pub fn four(s: &[u8], at: usize) -> u32
    requires { at + 4 ≤ length s.now }
    ensures { result ≡ number 4 s.now at }
{
    u32::from_le_bytes([s[at], s[at + 1], s[at + 2], s[at + 3]])
}
