// Entry i of a chunk, by its quick words. On a chunk that passes its check it is entry i of its entries; on other bytes the walk ends at the first thing that is no entry.
#![tactic(auto)]

ghost use Rattle.std.specs.Prelude.{◌≡◌};
ghost use Rattle.quickref.specs.Quickref.{group_at, after_at, nth_in, first_in, last_in};

use entries::{Kind, Limits, Place};

// Where the entry stands that quick word g is for; the first entry for 0.
fn group_at(c: &[u8], kind: Kind, g: usize) -> usize
    ensures { result ≡ group_at kind c.now g }
{
    let first = chunk_fields::first_place(kind);
    if g == 0 {
        return first;
    }
    first + fields::le16(c, chunk_fields::quick_place(g)) as usize
}

// The entry behind `past` others, the first of which stands at `from`.
fn entry_behind(c: &[u8], limits: Limits, kind: Kind, past: usize, from: usize) -> Option<Place>
    ensures { result ≡ after_at limits kind c.now past from }
{
    let mut at = from;
    for _ in 0..past {
        at = entries::item_at(c, limits, kind, at)?.next;
    }
    entries::item_at(c, limits, kind, at)
}

// Entry i of a chunk.
pub fn nth_entry(c: &[u8], limits: Limits, kind: Kind, i: usize) -> Option<Place>
    ensures { result ≡ nth_in limits kind c.now i }
{
    let total = chunk_fields::entry_count(c) as usize;
    if total <= i {
        return None;
    }
    let n = chunk_fields::spacing(limits.density);
    entry_behind(c, limits, kind, i % n, group_at(c, kind, i / n))
}

// The first entry of a chunk.
pub fn first_entry(c: &[u8], limits: Limits, kind: Kind) -> Option<Place>
    ensures { result ≡ first_in limits kind c.now }
{
    nth_entry(c, limits, kind, 0)
}

// The last entry of a chunk.
pub fn last_entry(c: &[u8], limits: Limits, kind: Kind) -> Option<Place>
    ensures { result ≡ last_in limits kind c.now }
{
    let total = chunk_fields::entry_count(c) as usize;
    if total < 1 {
        return None;
    }
    nth_entry(c, limits, kind, total - 1)
}
