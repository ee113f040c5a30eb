// Sets of indices below 13, as numbers: i is a member where bit i is 1.
#![tactic(auto)]

ghost use Rattle.std.specs.Prelude.{◌≡◌, ◌+◌, ◌≤◌, ◌<◌, length};
ghost use Rattle.sets.specs.Clauses.{on, Single, NotEmpty, MemberOf, NewTo, Some, Without, Rest, With, Meet, Join, PartOf, Minus, Picked, Pickable, UnionOf, Nonzero, Next};
ghost use Rattle.std.specs.Iterator.{at_most};

// The set of one member.
pub fn single(i: usize) -> u32
    requires { i < 13 }
    ensures { Single i result }
{
    1 << i
}

// 1 where i is a member, else 0.
// stays: a number and no bool, since line_sums::bit_of adds two of them
pub fn member(x: u32, i: usize) -> u32
    requires { i < 13 }
    ensures { result ≡ on x i }
{
    (x >> i) % 2
}

// A member of a set that is not empty: the first.
pub fn some(x: u32) -> usize
    requires { NotEmpty x }
    ensures { Some x result }
{
    x.trailing_zeros() as usize
}

// x without its member i.
pub fn without(x: u32, i: usize) -> u32
    requires { MemberOf x i }
    ensures { Without x i result }
{
    x ^ single(i)
}

// x without its first member, the one that `some` gives.
pub fn rest(x: u32) -> u32
    requires { NotEmpty x }
    ensures { Rest x result }
{
    x & (x - 1)
}

// x with the new member i.
pub fn with(x: u32, i: usize) -> u32
    requires { NewTo x i }
    ensures { With x i result }
{
    x | single(i)
}

// The members of both.
pub fn meet(a: u32, b: u32) -> u32
    ensures { Meet a b result }
{
    a & b
}

// The members of one or both.
pub fn join(a: u32, b: u32) -> u32
    ensures { Join a b result }
{
    a | b
}

// a without the members of its part b.
pub fn minus(a: u32, b: u32) -> u32
    requires { PartOf a b }
    ensures { Minus a b result }
{
    a ^ b
}

// What is left to go through of the members of a set.
#[derive(Clone, Copy, Drop)]
pub struct Iter {
    left: u32,
    ghost small: { left < 8192 },
}

// The members, the first one first.
pub fn members_of(x: u32) -> Iter
    requires { x < 8192 }
    ensures { result.left ≡ x }
{
    Iter { left: x }
}

impl Iterator for Iter {
    type Item = usize;

    ghost next_gives = { λ s r t. Next s.left r t.left };

    ghost remaining = { λ s. at_most s.left };

    fn next(&mut self) -> Option<usize> {
        if self.left == 0 {
            return None;
        }
        let first = some(self.left);
        self.left = rest(self.left);
        Some(first)
    }
}

// The union of the sets whose index is in x.
pub fn union_of(sets: &[u32; 13], x: u32) -> u32
    requires { x < 8192 }
    ensures { UnionOf sets.now x result }
{
    let mut r = 0;
    for p in members_of(x) {
        r = join(r, sets[p]);
    }
    r
}

// A member p of x with q in the set of index p.
pub fn pick(sets: &[u32; 13], x: u32, q: usize) -> usize
    requires { Pickable sets.now x q }
    ensures { Picked sets.now x q result }
{
    for p in members_of(x) {
        if member(sets[p], q) == 1 {
            return p;
        }
    }
    unreachable!()
}

// Which of the 13 numbers from place `from` on are not 0.
pub fn nonzero(numbers: &[u8], from: usize) -> u32
    requires { from + 13 ≤ length numbers.now }
    ensures { Nonzero numbers.now from result }
{
    let mut r = 0;
    for (j, x) in numbers[from..from + 13].iter().enumerate() {
        if *x > 0 {
            r = with(r, j);
        }
    }
    r
}
