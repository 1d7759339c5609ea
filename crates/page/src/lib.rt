// A page of the listing: all entries of one chunk at once. The bytes and the record may be any.
#![tactic(auto)]

ghost use Rattle.std.specs.Prelude.{◌≡◌, true, ◌+◌, ◌*◌, ◌≤◌, length};
ghost use Rattle.std.proofs.lemmas.List.Edits.{sets};
ghost use Rattle.chunk_fields.specs.ChunkFields.{entry_count};
ghost use Rattle.tree.specs.Shape.{is_listing};
ghost use Rattle.book.specs.Book.{chunk_bytes, directory_of};
ghost use Rattle.listing.specs.Listing.{reports_in};
ghost use Rattle.page.specs.Page.{five_of, numbers_of, page_of, page_in};

use chunk::Chunk;
use entries::Kind;
use header::Record;
use refusals::{Refusal, Rule};
use report::Report;

// What a page gives: how many entries it has and the chunk that follows; or that the lent slice is too short.
#[derive(Clone, Copy)]
pub enum Page {
    Entries(u32, u32),
    Short,
}

// Writes the five numbers of a report from `at` on.
fn put_report(out: &mut [u64], at: usize, r: Report)
    requires { at + 5 ≤ length out.old }
    ensures { out.new ≡ sets out.old at (five_of r) }
{
    out[at] = r.place;
    out[at + 1] = r.length;
    out[at + 2] = r.section;
    out[at + 3] = r.offset;
    out[at + 4] = r.size;
}

// Writes the numbers of every entry of a listing chunk that was checked, one behind another. Since it was checked, each of them is there.
fn put_reports(file: &[u8], book: Record, chunk: u64, out: &mut [u64])
    requires chunk_value { is_listing (directory_of file.now book chunk) ≡ true }
    requires chunk_in_bounds { 5 * entry_count (chunk_bytes file.now book chunk) ≤ length out.old }
    ensures { out.new ≡ sets out.old 0 (numbers_of (reports_in file.now book chunk)) }
{
    let c = book::chunk_bytes(file, book, chunk);
    let limits = book::limits(file, book);
    let total = chunk_fields::entry_count(c) as usize;
    let mut at = chunk_fields::first_place(Kind::Listing);
    for i in 0..total {
        let Some(e) = entries::listing_at(c, at, limits.content) else {
            return;
        };
        put_report(out, 5 * i, report::report_of(file, book, chunk, e));
        at = e.next;
    }
}

// The entries of one listing chunk: their numbers, five an entry, from the front of `out` on, their count, and the chunk that follows.
pub fn chunk_page(file: &[u8], book: Record, chunk: u64, out: &mut [u64]) -> Result<Page, Refusal>
    ensures answer { result ≡ page_of file.now book chunk (length out.old) }
    ensures written { out.new ≡ page_in file.now book chunk out.old }
{
    if !book::record_fits(file, book) {
        return Err(refusals::refuse(Rule::BadRecord));
    }
    let next = match book::checked_chunk(file, book, chunk) {
        Ok(Chunk::Listing(_, next)) => next,
        Ok(Chunk::Index) => return Err(refusals::refuse(Rule::BadRecord)),
        Err(_) => return Err(refusals::refuse(Rule::BadRecord)),
    };
    let total = chunk_fields::entry_count(book::chunk_bytes(file, book, chunk)) as u32;
    if out.len() < 5 * (total as usize) {
        return Ok(Page::Short);
    }
    put_reports(file, book, chunk, out);
    Ok(Page::Entries(total, next))
}
