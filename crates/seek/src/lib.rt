// Search in one chunk: the entry of a name, the entry to go down from. On a chunk that passes its check each is a search in
// its entries; on other bytes it ends at the first thing that is no entry.
#![tactic(auto)]

ghost use Rattle.std.specs.Prelude.{◌≡◌, ◌+◌, ◌-◌, ◌≤◌, ◌<◌};
ghost use Rattle.entries.specs.declared.Kind.TheVariants.{Listing, Index};
ghost use Rattle.names.specs.Names.{compared};
ghost use Rattle.entries.specs.Entry.{index_at, with_item};
ghost use Rattle.seek.specs.Seek.{find_in, choose_in, child_of};
ghost use Rattle.seek.specs.Count.{cost_in};

use entries::{Kind, Limits, Place};
use halving::Group;
use std::cmp::Ordering;

// What a search for a name comes to, and how many comparisons of the asked name it made.
#[derive(Clone, Copy)]
pub struct Searched<T> {
    pub answer: T,
    pub count: u32,
}

// How many comparisons were made when so many entries of a group are left: those that chose it, and one for each entry that is gone through.
fn spent(group: Group, left: usize) -> u32
    requires { (left ≤ group.size) × (group.size < 65536) × (group.count < 65536) }
    ensures { result ≡ group.count + (group.size - left) }
{
    group.count + (group.size - left) as u32
}

// The entry of a listing chunk whose name compares equal. `find` and `choose` stay two loops: as one over both kinds they miss the bar (DECISIONS 47).
pub fn find(c: &[u8], limits: Limits, name: &[u8]) -> Searched<Option<Place>>
    ensures { result ≡ record { answer = find_in limits c.now (compared name.now); count = cost_in limits Listing c.now (compared name.now) } }
{
    let group = halving::group_for(c, limits, Kind::Listing, name);
    let mut at = group.at;
    let mut left = group.size;
    while 0 < left {
        let Some(e) = entries::listing_at(c, at, limits.content) else {
            return Searched {
                answer: None,
                count: spent(group, left),
            };
        };
        let start = e.start;
        let len = e.len;
        left -= 1;
        match names::compare(name, &c[start..start + len]) {
            Ordering::Less => {
                return Searched {
                    answer: None,
                    count: spent(group, left),
                };
            }
            Ordering::Equal => {
                return Searched {
                    answer: Some(e),
                    count: spent(group, left),
                };
            }
            Ordering::Greater => {}
        }
        at = e.next;
    }
    Searched {
        answer: None,
        count: spent(group, left),
    }
}

// The child of the index entry at a place; `before` where there is none.
fn child_at(c: &[u8], at: usize, count: u64, before: Option<u64>) -> Option<u64>
    ensures { result ≡ with_item (index_at count c.now at) before (λ e. Some e.child) }
{
    match entries::index_at(c, at, count) {
        Some(e) => Some(e.child),
        None => before,
    }
}

// A child, beside how many comparisons were made when so many entries of a group are left.
fn child_of(child: Option<u64>, group: Group, left: usize) -> Searched<Option<u64>>
    requires { (left ≤ group.size) × (group.size < 65536) × (group.count < 65536) }
    ensures { result ≡ record { answer = child; count = group.count + (group.size - left) } }
{
    Searched {
        answer: child,
        count: spent(group, left),
    }
}

// The child of the last entry of an index chunk whose name is not above a name. An entry that the search passes over is not made whole: its name and its child
// are all that is wanted of it.
pub fn choose(c: &[u8], limits: Limits, name: &[u8]) -> Searched<Option<u64>>
    ensures { result ≡ record { answer = child_of (choose_in limits c.now (compared name.now)); count = cost_in limits Index c.now (compared name.now) } }
{
    let group = halving::group_for(c, limits, Kind::Index, name);
    let mut best = None;
    let mut at = group.at;
    let mut left = group.size;
    while 0 < left {
        let Some((n, from)) = entries::name_at(c, at) else {
            return child_of(best, group, left);
        };
        let behind = from + n as usize;
        left -= 1;
        match names::compare(name, &c[from..behind]) {
            Ordering::Less => return child_of(best, group, left),
            Ordering::Equal => return child_of(child_at(c, at, limits.count, best), group, left),
            Ordering::Greater => {}
        }
        let Some((child, next)) = encint::read(c, behind) else {
            return child_of(best, group, left);
        };
        if limits.count <= child {
            return child_of(best, group, left);
        }
        best = Some(child);
        at = next;
    }
    child_of(best, group, left)
}
