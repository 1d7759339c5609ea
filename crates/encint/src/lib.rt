// ENCINT: a number of seven bits a byte, most significant first. Leading bytes of 80 hex are read as zero bits; none are written.
#![tactic(auto)]

ghost use Rattle.std.specs.Prelude.{◌≡◌, cond, ◌++◌, ◌+◌, ◌≤◌, min, length, take, drop};
ghost use Rattle.fields.specs.Part.{inside};
ghost use Rattle.put.specs.Put.{put};
ghost use Rattle.encint.specs.Encint.{rest, encint_at, leading, encoded};
ghost use Rattle.encint.specs.Padded.{ReadExact};

// Where a number at `at` ends at the latest: nine bytes on, or at the end of a slice of `len` bytes.
fn reach(len: usize, at: usize) -> usize
    ensures { result ≡ min len (at + 9) }
{
    if len <= at {
        return len;
    }
    if len - at < 9 {
        return len;
    }
    at + 9
}

// The number at `at`, of any length up to nine bytes.
fn groups_at(s: &[u8], at: usize) -> Option<(u64, usize)>
    ensures { result ≡ rest 9 0 at (drop at s.now) }
{
    let end = reach(s.len(), at);
    let mut v: u64 = 0;
    for i in at..end {
        let b = s[i];
        v = v * 128 + (b % 128) as u64;
        if b < 128 {
            return Some((v, i + 1));
        }
    }
    None
}

// The number at `at`, not past the end of s, and the place behind it. Most numbers of a directory have one byte, so that case comes first. A byte that is to be followed by another
// must not be the last (DECISIONS 79 says what this test is worth).
pub fn read(s: &[u8], at: usize) -> Option<(u64, usize)>
    ensures number { result ≡ encint_at s.now at }
    ensures exact { ReadExact s.now at result }
{
    if s.len() <= at {
        return None;
    }
    let b = s[at];
    let next = at + 1;
    if b < 128 {
        return Some((b as u64, next));
    }
    if s.len() <= next {
        return None;
    }
    groups_at(s, at)
}

// How many bytes v takes; 0 for 2^63 and above. No option: the clauses here and at `write` have 0, and callers add it to a place.
pub fn size(v: u64) -> usize
    ensures { result ≡ length (encoded v) }
{
    if 0x7FFF_FFFF_FFFF_FFFF < v {
        return 0;
    }
    let mut w = v / 128;
    let mut n: usize = 1;
    while 0 < w {
        w = w / 128;
        n += 1;
    }
    n
}

// Writes the lowest n groups of w at `at`, each with the high bit.
fn write_leading(out: &mut [u8], at: usize, w: u64, n: usize)
    requires { at + n ≤ length out.old }
    ensures { out.new ≡ take at out.old ++ leading n w (drop (at + n) out.old) }
{
    let mut x = w;
    for j in (0..n).rev() {
        out[at + j] = (128 + x % 128) as u8;
        x = x / 128;
    }
}

// Writes v at `at`, and returns how many bytes that took: 0, with nothing written, where there is no room or v is 2^63 or more.
pub fn write(out: &mut [u8], at: usize, v: u64) -> usize
    ensures count { result ≡ cond (inside out.old at (length (encoded v))) (length (encoded v)) 0 }
    ensures bytes { out.new ≡ put out.old at (encoded v) }
{
    let n = size(v);
    if n == 0 {
        return 0;
    }
    if out.len() < at {
        return 0;
    }
    if out.len() - at < n {
        return 0;
    }
    let last = n - 1;
    out[at + last] = (v % 128) as u8;
    write_leading(out, at, v / 128, last);
    n
}
