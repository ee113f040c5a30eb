// Numbers put into a slice of bytes, low byte first.
// stays: one function a width, as in `read`
ghost use Rattle.std.specs.Prelude.{◌≡◌, ◌+◌, ◌≤◌, length};
ghost use Rattle.base.specs.Buffers.{put_at};
ghost use Rattle.byte_numbers.specs.Bytes.{bytes};

// Puts a byte at a place.
pub fn put1(x: u8, at: usize, plan: &mut [u8])
    requires { at + 1 ≤ length plan.old }
    ensures { plan.new ≡ put_at plan.old at (bytes 1 x) }
{
    plan[at] = x;
}

// Puts a number at a place in two bytes, low byte first.
pub fn put2(x: u16, at: usize, plan: &mut [u8])
    requires { at + 2 ≤ length plan.old }
    ensures { plan.new ≡ put_at plan.old at (bytes 2 x) }
{
    plan[at..at + 2].copy_from_slice(&x.to_le_bytes());
}

// Puts a number at a place in four bytes, low byte first.
pub fn put4(x: u32, at: usize, plan: &mut [u8])
    requires { at + 4 ≤ length plan.old }
    ensures { plan.new ≡ put_at plan.old at (bytes 4 x) }
{
    plan[at..at + 4].copy_from_slice(&x.to_le_bytes());
}
