// The order of names in a directory.
#![tactic(auto)]

ghost use Rattle.std.specs.Prelude.{◌≡◌, ◌+◌, ◌-◌, ◌^◌, ◌≤◌, ◌<◌, length};
ghost use Rattle.fields.specs.Le.{le};
ghost use Rattle.names.specs.Names.{folded, compared, below, matches, order_code, askable};
ghost use Rattle.names.specs.Alike.{Reached};

use std::cmp::Ordering;

// A byte as it is compared: 41..5A hex as 61..7A.
pub fn fold(b: u8) -> u8
    ensures { result ≡ folded b }
{
    if 0x41 <= b {
        if b <= 0x5A {
            return b + 0x20;
        }
    }
    b
}

// Two bytes from i on as one number. The compiler makes one load of two, of four and of eight, and `compare` is then small enough for it to put it into the
// loops that call it.
fn two(s: &[u8], i: usize) -> u64
    requires { i + 2 ≤ length s.now }
    ensures is { result ≡ le 2 s.now i }
    ensures below { result < 256 ^ 2 }
{
    let low = s[i] as u64;
    let high = s[i + 1] as u64;
    low + 0x100 * high
}

// Four bytes.
fn four(s: &[u8], i: usize) -> u64
    requires { i + 4 ≤ length s.now }
    ensures is { result ≡ le 4 s.now i }
    ensures below { result < 256 ^ 4 }
{
    two(s, i) + 0x1_0000 * two(s, i + 2)
}

// Eight bytes.
fn eight(s: &[u8], i: usize) -> u64
    requires { i + 8 ≤ length s.now }
    ensures { result ≡ le 8 s.now i }
{
    four(s, i) + 0x1_0000_0000 * four(s, i + 4)
}

// Up to where in a its bytes from `from` on are those of b from `at` on, looked at by eights and no further than `end`. The loops of this comparing count by
// hand: their bar (docs/BENCHMARKS.md, host test `compare`) hangs on what the compiler makes of them.
fn same_by_eights(a: &[u8], from: usize, b: &[u8], at: usize, end: usize) -> usize
    requires { (from ≤ end) × (end ≤ length a.now) × (at + (end - from) ≤ length b.now) }
    ensures { Reached a.now b.now from at end result }
{
    let mut j = from;
    let mut k = at;
    while 8 <= end - j {
        if eight(a, j) != eight(b, k) {
            return j;
        }
        j += 8;
        k += 8;
    }
    j
}

// The same to the byte. The first is looked at alone: where it differs, eight cost more than they save.
fn same_up_to(a: &[u8], from: usize, b: &[u8], at: usize, end: usize) -> usize
    requires { (from ≤ end) × (end ≤ length a.now) × (at + (end - from) ≤ length b.now) }
    ensures { Reached a.now b.now from at end result }
{
    if from < end {
        if a[from] != b[at] {
            return from;
        }
    }
    let mut j = same_by_eights(a, from, b, at, end);
    let mut k = at + (j - from);
    while j < end {
        if a[j] != b[k] {
            return j;
        }
        j += 1;
        k += 1;
    }
    j
}

// The length of the shorter name.
fn shorter(a: &[u8], b: &[u8]) -> usize
    ensures { (result ≤ length a.now) × (result ≤ length b.now) × (result < length a.now → length b.now ≤ result) }
{
    a.len().min(b.len())
}

// How the name a stands to the name b. Names that stand beside each other mostly agree byte for byte, and bytes that are the same need no folding: it is done at a
// difference alone, and where the folded bytes agree, what is behind is passed over again.
pub fn compare(a: &[u8], b: &[u8]) -> Ordering
    ensures { result ≡ compared a.now b.now }
{
    let end = shorter(a, b);
    let mut i: usize = 0;
    loop {
        i = same_up_to(a, i, b, i, end);
        if end <= i {
            if i < a.len() {
                return Ordering::Greater;
            }
            if i < b.len() {
                return Ordering::Less;
            }
            return Ordering::Equal;
        }
        let x = fold(a[i]);
        let y = fold(b[i]);
        if x < y {
            return Ordering::Less;
        }
        if y < x {
            return Ordering::Greater;
        }
        i += 1;
    }
}

// Whether a comes before b.
#[tactic(auto, unfolding(crate::specs::Names::below))]
pub fn is_below(a: &[u8], b: &[u8]) -> bool
    ensures { result ≡ below a.now b.now }
{
    compare(a, b).is_lt()
}

// Whether a compares equal to b.
#[tactic(auto, unfolding(crate::specs::Names::matches))]
pub fn is_match(a: &[u8], b: &[u8]) -> bool
    ensures { result ≡ matches a.now b.now }
{
    compare(a, b).is_eq()
}

// An answer as a number: 0 below, 1 equal, 2 above.
fn order_code(o: Ordering) -> u64
    ensures { result ≡ order_code o }
{
    match o {
        Ordering::Less => 0,
        Ordering::Equal => 1,
        Ordering::Greater => 2,
    }
}

// How a stands to b, as a number.
pub fn order_of(a: &[u8], b: &[u8]) -> u64
    ensures { result ≡ order_code (compared a.now b.now) }
{
    order_code(compare(a, b))
}

// Whether a name can be asked.
pub fn is_askable(name: &[u8]) -> bool
    ensures { result ≡ askable name.now }
{
    if name.len() < 1 {
        return false;
    }
    name.len() <= 1024
}
