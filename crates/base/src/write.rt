// Numbers written to a lent buffer.
ghost use Rattle.std.specs.Prelude.{◌≡◌, [], ◌∷◌, ◌≤◌, length};
ghost use Rattle.base.specs.Buffers.{written};

// Writes four numbers at the start of a buffer.
pub fn write_four(a: u32, b: u32, c: u32, d: u32, buffer: &mut [u32])
    requires { 4 ≤ length buffer.old }
    ensures { buffer.new ≡ written (a ∷ b ∷ c ∷ d ∷ []) buffer.old }
{
    buffer[..4].copy_from_slice(&[a, b, c, d]);
}
