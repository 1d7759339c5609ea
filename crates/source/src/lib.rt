// The entries that a level of chunks is made of, one at a time. Here and in the writer, the input and its places stay parameters beside each other, since clauses
// over one struct of them would be the longer ones (DECISIONS 109).
#![tactic(auto)]

ghost use Rattle.std.specs.Prelude.{◌≡◌};
ghost use Rattle.source.specs.Source.{index_entry_for, item_from, taken_of};

use entries::{Kind, Place};

// How far the entries of a level are taken, and how many more may be. A listing level takes them from the input: `at` is the place of the next one.
// An index level has one for each chunk so far: `at` is the number of the next chunk.
#[derive(Clone, Copy)]
pub struct Cursor {
    pub kind: Kind,
    pub at: usize,
    pub left: usize,
}

// The index entry for chunk c. `starts` has, for each chunk so far, where the entry of its first name stands in the input.
fn child_entry(input: &[u8], starts: &[usize], c: usize) -> Option<Place>
    ensures { result ≡ index_entry_for input.now starts.now c }
{
    if starts.len() <= c {
        return None;
    }
    let at = starts[c];
    let (len, start) = entries::name_at(input, at)?;
    Some(Place {
        at,
        start,
        len: len as usize,
        section: 0,
        offset: 0,
        size: 0,
        child: c as u64,
        next: c + 1,
    })
}

// The entry at a cursor. It is bad where no more may be taken, or no good entry stands there.
pub fn step(input: &[u8], starts: &[usize], content: u64, from: Cursor) -> Option<Place>
    ensures { result ≡ taken_of from.left (item_from content input.now starts.now from.kind from.at) }
{
    if from.left == 0 {
        return None;
    }
    let kind = from.kind;
    // not a match: the compiler would then put this into `pack::next_fit`, which would no longer go into the writer's loop (DECISIONS 93)
    if let Kind::Listing = kind {
        return entries::listing_at(input, from.at, content);
    }
    child_entry(input, starts, from.at)
}
