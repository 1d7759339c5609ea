// A walk along the chain of a book, entry by entry. A chunk is checked once, as it is entered. The bytes, the record and the walk may be any.
#![tactic(auto)]

ghost use Rattle.std.specs.Prelude.{◌≡◌, List, ℕ};
ghost use Rattle.refusals.specs.Refusals.{refusal_of};
ghost use Rattle.refusals.specs.declared.Rule.TheVariants.{BadRecord};
ghost use Rattle.walk.specs.Walk.{walk_start, is_over, entered, entry_here, coming_at, after_of, name_here};
ghost use Rattle.walk.specs.Exact.{WalkExact};

use chunk::Chunk;
use entries::{Kind, Place};
use header::Record;
use refusals::{Refusal, Rule};

// The chunk that is being read, the place of its next entry and how many entries are left in it; the chunk that follows, and how many chunks may still be entered.
#[derive(Clone, Copy)]
pub struct Walk {
    pub chunk: u64,
    pub at: u64,
    pub left: u64,
    pub next: u64,
    pub more: u64,
}

// What comes next: an entry, with the walk inside its chunk; or the end, for which there is none.
pub type Coming = Result<Option<(Place, Walk)>, Refusal>;

// The refusal of a record, a chunk or an entry that cannot be read.
fn no_reading() -> Refusal
    ensures { result ≡ refusal_of BadRecord }
{
    refusals::refuse(Rule::BadRecord)
}

// Whether a chunk was entered and none follows it.
fn is_over(w: Walk, book: Record) -> bool
    ensures { result ≡ is_over book w }
{
    if w.next == refusals::no_chunk() as u64 {
        w.more < book.count
    } else {
        false
    }
}

// The walk inside its chunk, the one that is being read or the one that follows, which is checked; none at the chain's end.
fn enter(w: Walk, file: &[u8], book: Record) -> Result<Option<Walk>, Refusal>
    ensures { result ≡ entered file.now book w }
{
    if 0 < w.left {
        return Ok(Some(w));
    }
    if is_over(w, book) {
        return Ok(None);
    }
    if w.more < 1 {
        return Err(no_reading());
    }
    let next = match book::checked_chunk(file, book, w.next) {
        Ok(Chunk::Listing(_, next)) => next as u64,
        Ok(Chunk::Index) => return Err(no_reading()),
        Err(_) => return Err(no_reading()),
    };
    let at = chunk_fields::first_place(Kind::Listing) as u64;
    let left = chunk_fields::entry_count(book::chunk_bytes(file, book, w.next)) as u64;
    Ok(Some(Walk {
        chunk: w.next,
        at,
        left,
        next,
        more: w.more - 1,
    }))
}

// The entry at a walk inside a chunk.
fn entry_here(w: Walk, file: &[u8], book: Record) -> Coming
    ensures { result ≡ entry_here file.now book w }
{
    let limits = book::limits(file, book);
    let c = book::chunk_bytes(file, book, w.chunk);
    match entries::listing_at(c, w.at as usize, limits.content) {
        Some(e) => Ok(Some((e, w))),
        None => Err(no_reading()),
    }
}

impl Walk {
    // Before the first listing chunk of a book. From here a walk reads what stands along the chain, in any file.
    pub fn start(book: Record) -> Walk
        ensures answer { result ≡ walk_start book }
        ensures exact { (s : List ℕ) → WalkExact s book result }
    {
        Walk {
            chunk: refusals::no_chunk() as u64,
            at: 0,
            left: 0,
            next: book.first,
            more: book.count,
        }
    }

    // What comes next at a walk. The record is looked at first.
    pub fn peek(self, file: &[u8], book: Record) -> Coming
        ensures { result ≡ coming_at file.now book self }
    {
        if !book::record_fits(file, book) {
            return Err(no_reading());
        }
        match enter(self, file, book)? {
            Some(w) => entry_here(w, file, book),
            None => Ok(None),
        }
    }

    // The walk behind an entry.
    pub fn after(self, e: Place) -> Walk
        ensures { result ≡ after_of self e }
    {
        let mut left: u64 = 0;
        if 0 < self.left {
            left = self.left - 1;
        }
        Walk {
            chunk: self.chunk,
            at: e.next as u64,
            left,
            next: self.next,
            more: self.more,
        }
    }

    // The name of an entry, of the file itself.
    pub fn name(self, file: &[u8], book: Record, e: Place) -> &[u8]
        ensures { result.now ≡ name_here file.now book self e }
    {
        fields::part(book::chunk_bytes(file, book, self.chunk), e.start, e.len)
    }
}
