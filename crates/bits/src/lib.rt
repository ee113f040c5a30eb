// A bit for each number, in bytes: number d in bit d mod 8, the lowest first, of byte d / 8.
#![tactic(auto)]

ghost use Rattle.std.specs.Prelude.{◌≡◌, map, ◌+◌, ◌*◌, ◌/◌, ◌%◌, ◌^◌, ◌<◌, ◌≤◌, length, get_or, set};
ghost use Rattle.bits.specs.Bits.{bit_of, bit_bytes, spare_clear};
ghost use Rattle.bits.specs.Clauses.{bits_set, Span, Spared, Unset};
ghost use Rattle.bits.specs.Examples.{two_bytes, numbers, lengths, spares};
ghost use Rattle.bits.specs.Examples as examples;

// Bit d, 0 or 1.
// stays: a number, since bits are added up
pub fn bit(bits: &[u8], d: usize) -> u32
    requires { d < 8 * length bits.now }
    ensures { result ≡ bit_of bits.now d }
{
    u32::from(bits[d / 8] >> (d % 8)) % 2
}

// How many of `count` bits from `from` on are set.
pub fn bits_set(bits: &[u8], from: usize, count: usize) -> u32
    requires { Span from count bits.now }
    ensures { result ≡ bits_set bits.now from count }
{
    let mut sum = 0;
    // stays: bits are found by their numbers, and are no slice
    for j in 0..count {
        sum += bit(bits, from + j);
    }
    sum
}

// Whether the spare bits after the first `count`, up to the end of their last byte, are all 0.
pub fn spare_clear(bits: &[u8], count: usize) -> bool
    requires { Spared count bits.now }
    ensures { result ≡ spare_clear count bits.now }
{
    let spare = 8 * count.div_ceil(8) - count;
    bits_set(bits, count, spare) == 0
}

// Sets bit d, which is not set.
pub fn set_bit(bits: &mut [u8], d: usize)
    requires { Unset d bits.old }
    ensures { bits.new ≡ set bits.old (d / 8) (get_or bits.old (d / 8) 0 + 2 ^ (d % 8)) }
{
    bits[d / 8] += 1 << (d % 8);
}

// The literal cases are as stated: the bit of each number, how many bytes the bits of a denominator take, and which bits are spare.
pub fn claims()
    ensures bits { map (bit_of two_bytes) numbers ≡ examples.set }
    ensures bytes { map (λ x. bit_bytes x.denominator) lengths ≡ map (λ x. x.bytes) lengths }
    ensures spares { map (λ x. spare_clear x.count x.bits) spares ≡ map (λ x. x.clear) spares }
{}
