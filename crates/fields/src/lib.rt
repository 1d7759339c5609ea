// Little-endian numbers of fixed width in a slice, given bytes that stand at a place, and a part of a slice.
#![tactic(auto)]

ghost use Rattle.std.specs.Prelude.{◌≡◌, ◌+◌, ◌^◌, ◌≤◌, ◌<◌, get_or};
ghost use Rattle.fields.specs.Le.{le};
ghost use Rattle.fields.specs.Part.{part_of};
ghost use Rattle.fields.specs.Same.{same, stands_at};

// The byte at `at + i`, or 0 past the end.
fn byte(s: &[u8], at: usize, i: usize) -> u8
    ensures { result ≡ get_or s.now (at + i) 0 }
{
    if at < s.len() {
        if i < s.len() - at {
            return s[at + i];
        }
    }
    0
}

// The number whose k bytes stand at `at`, lowest first.
fn number(s: &[u8], at: usize, k: usize) -> u64
    requires { k ≤ 8 }
    ensures is { result ≡ le k s.now at }
    ensures below { result < 256 ^ k }
{
    let mut v: u64 = 0;
    for i in (0..k).rev() {
        let b = byte(s, at, i) as u64;
        v = b + 256 * v;
    }
    v
}

// One function for each width and not a generic one: each has a type of its own, and this one a way of its own.
pub fn le16(s: &[u8], at: usize) -> u16
    ensures { result ≡ le 2 s.now at }
{
    // The common case, of two bytes inside: the compiler makes it one load.
    if at < s.len() {
        if 1 < s.len() - at {
            let low = s[at] as u16;
            let high = s[at + 1] as u16;
            return low + 0x100 * high;
        }
    }
    number(s, at, 2) as u16
}

pub fn le32(s: &[u8], at: usize) -> u32
    ensures { result ≡ le 4 s.now at }
{
    number(s, at, 4) as u32
}

pub fn le64(s: &[u8], at: usize) -> u64
    ensures { result ≡ le 8 s.now at }
{
    number(s, at, 8)
}

// Whether a and b hold the same bytes.
#[tactic(auto, using(crate::proofs::Same::same_pointwise))]
pub fn equal(a: &[u8], b: &[u8]) -> bool
    ensures { result ≡ same a.now b.now }
{
    a == b
}

// Whether the bytes of c stand in s at `at`.
pub fn stands_at(s: &[u8], at: usize, c: &[u8]) -> bool
    ensures { result ≡ stands_at s.now at c.now }
{
    if at <= s.len() {
        if c.len() <= s.len() - at {
            return equal(&s[at..at + c.len()], c);
        }
    }
    false
}

// The n bytes of s from `at` on, of the lent slice itself; the empty part where they do not lie inside s.
pub fn part(s: &[u8], at: usize, n: usize) -> &[u8]
    ensures { result.now ≡ part_of s.now at n }
{
    if at <= s.len() {
        if n <= s.len() - at {
            return &s[at..at + n];
        }
    }
    &s[0..0]
}
