// The listing of a book: a cursor that goes from entry to entry. The bytes and the record may be any.
#![tactic(auto)]

ghost use Rattle.std.specs.Prelude.{◌≡◌, true};
ghost use Rattle.tree.specs.Shape.{is_listing, next_of};
ghost use Rattle.book.specs.Book.{directory_of};
ghost use Rattle.listing.specs.Listing.{start_of, entry_step, stepped, owned_at, OwnBeside};

use chunk::Chunk;
use entries::Kind;
use header::Record;
use refusals::{Refusal, Rule};
use report::{Own, Report};

// The chunk and the number of the entry to be reported next.
#[derive(Clone, Copy)]
pub struct Cursor {
    pub chunk: u64,
    pub entry: u64,
}

// What a step gives: an entry and the cursor moved on, or the end with the cursor as it was.
#[derive(Clone, Copy)]
pub enum Step {
    Entry(Report, Cursor),
    End(Cursor),
}

// The step at an entry of a listing chunk that was checked, with its next chunk.
fn step_in(file: &[u8], book: Record, at: Cursor, next: u32) -> Result<Step, Refusal>
    requires chunk_value { is_listing (directory_of file.now book at.chunk) ≡ true }
    requires chunk_value_2 { next_of (directory_of file.now book at.chunk) ≡ next }
    ensures { result ≡ entry_step book (directory_of file.now book at.chunk) at }
{
    let c = book::chunk_bytes(file, book, at.chunk);
    let Some(e) = quickref::nth_entry(
        c,
        book::limits(file, book),
        Kind::Listing,
        at.entry as usize,
    ) else {
        return Err(refusals::refuse(Rule::BadRecord));
    };
    let r = report::report_of(file, book, at.chunk, e);
    let total = chunk_fields::entry_count(c) as u64;
    let after = at.entry + 1;
    if after < total {
        return Ok(Step::Entry(
            r,
            Cursor {
                chunk: at.chunk,
                entry: after,
            },
        ));
    }
    let chunk = next as u64;
    Ok(Step::Entry(r, Cursor { chunk, entry: 0 }))
}

impl Cursor {
    // At the first entry of the record's first listing chunk.
    pub fn start(book: Record) -> Cursor
        ensures { result ≡ start_of book }
    {
        Cursor {
            chunk: book.first,
            entry: 0,
        }
    }

    // The entry at the cursor, and the cursor one entry on. The record is looked at first, then whether the cursor is at the end.
    pub fn step(self, file: &[u8], book: Record) -> Result<Step, Refusal>
        ensures { result ≡ stepped file.now book self }
    {
        if !book::record_fits(file, book) {
            return Err(refusals::refuse(Rule::BadRecord));
        }
        if self.chunk == refusals::no_chunk() as u64 {
            return Ok(Step::End(self));
        }
        match book::checked_chunk(file, book, self.chunk) {
            Ok(Chunk::Listing(_, next)) => step_in(file, book, self, next),
            Ok(Chunk::Index) => Err(refusals::refuse(Rule::BadRecord)),
            Err(_) => Err(refusals::refuse(Rule::BadRecord)),
        }
    }

    // The own bytes of the entry at the cursor, as stored; none where there is no entry. The cursor stays.
    pub fn own(self, file: &[u8], book: Record) -> Option<Own>
        ensures bytes { result ≡ owned_at file.now book self }
        ensures beside { OwnBeside file.now (stepped file.now book self) result }
    {
        if !book::record_fits(file, book) {
            return None;
        }
        match book::checked_chunk(file, book, self.chunk) {
            Ok(Chunk::Listing(_, _)) => {}
            Ok(Chunk::Index) => return None,
            Err(_) => return None,
        }
        let c = book::chunk_bytes(file, book, self.chunk);
        let e = quickref::nth_entry(
            c,
            book::limits(file, book),
            Kind::Listing,
            self.entry as usize,
        )?;
        Some(report::own_of(file, book, self.chunk, e))
    }
}
