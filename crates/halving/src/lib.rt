// The group of a chunk to go through for a name, by halving over its quick words. On any bytes it answers; where a first name is none, halving goes on before it.
#![tactic(auto)]

ghost use Rattle.std.specs.Prelude.{◌≡◌, ◌≤◌, ◌<◌, length};
ghost use Rattle.std.specs.Ordering.{is_lt};
ghost use Rattle.names.specs.Names.{compared};
ghost use Rattle.chunk_fields.specs.ChunkFields.{count_place};
ghost use Rattle.quickref.specs.Quickref.{group_at};
ghost use Rattle.halving.specs.Halving.{group_above, halved, group_in, size_in};
ghost use Rattle.halving.specs.Halvings.{halvings, halvings_in};

use entries::{Kind, Limits};
use std::cmp::Ordering;

// The group that halving leaves, and how many comparisons it made.
#[derive(Clone, Copy)]
struct Halved {
    group: usize,
    count: u32,
}

// A group of entries: where it begins, how many it has, and how many comparisons it took to choose it.
#[derive(Clone, Copy)]
pub struct Group {
    pub at: usize,
    pub size: usize,
    pub count: u32,
}

// Where the entry stands that quick word g is for; the first entry for 0. Whoever knows that the chunk has a count needs no test for reading a word.
fn group_place(c: &[u8], kind: Kind, g: usize) -> usize
    requires { count_place < length c.now }
    ensures { result ≡ group_at kind c.now g }
{
    let first = chunk_fields::first_place(kind);
    if g == 0 {
        return first;
    }
    let at = chunk_fields::quick_place(g);
    let low = c[at] as usize;
    let high = c[at + 1] as usize;
    first + low + 0x100 * high
}

// How a name stands to the first name of group g: `Less` where that is above the name, or there is none.
fn stands_to(c: &[u8], kind: Kind, name: &[u8], g: usize) -> Ordering
    requires { count_place < length c.now }
    ensures { is_lt result ≡ group_above kind c.now (compared name.now) g }
{
    let Some((n, start)) = entries::name_at(c, group_place(c, kind, g)) else {
        return Ordering::Less;
    };
    let len = n as usize;
    names::compare(name, &c[start..start + len])
}

// Of groups 0 to `last`, the one to go through for a name. With an arm for each answer the compiler keeps a branch here, so that the processor reads
// on in the half that it expects; two arms became a conditional move, which waits for each comparison.
fn group_of(c: &[u8], kind: Kind, name: &[u8], last: usize) -> Halved
    requires { (last < 65536) × (count_place < length c.now) }
    ensures { (result.group ≡ halved (group_above kind c.now (compared name.now)) last 0 last) × (result.count ≡ halvings (group_above kind c.now (compared name.now)) last 0 last) × (result.group ≤ last) }
{
    let mut lo: usize = 0;
    let mut hi = last;
    let mut turns: u32 = 0;
    while lo < hi {
        let middle = lo + (hi - lo + 1) / 2;
        turns += 1;
        match stands_to(c, kind, name, middle) {
            Ordering::Less => hi = middle - 1,
            Ordering::Equal => lo = middle,
            Ordering::Greater => lo = middle,
        }
    }
    Halved {
        group: lo,
        count: turns,
    }
}

// The group of a chunk to go through for a name.
pub fn group_for(c: &[u8], limits: Limits, kind: Kind, name: &[u8]) -> Group
    ensures { (result.at ≡ group_at kind c.now (group_in limits kind c.now (compared name.now))) × (result.size ≡ size_in limits c.now (group_in limits kind c.now (compared name.now))) × (result.count ≡ halvings_in limits kind c.now (compared name.now)) }
{
    let total = chunk_fields::entry_count(c) as usize;
    if total == 0 {
        return Group {
            at: chunk_fields::first_place(kind),
            size: 0,
            count: 0,
        };
    }
    let n = chunk_fields::spacing(limits.density);
    let left = group_of(c, kind, name, (total - 1) / n);
    Group {
        at: group_place(c, kind, left.group),
        size: n.min(total - left.group * n),
        count: left.count,
    }
}
