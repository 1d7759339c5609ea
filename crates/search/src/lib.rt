// The searches for a name in one chunk of a file, checked or not. The bytes and the record may be any.
#![tactic(auto)]

ghost use Rattle.std.specs.Prelude.{◌≡◌};
ghost use Rattle.search.specs.Search.{finding_in, child_in, search_in};

use chunk::Chunk;
use header::Record;
use report::Report;
use seek::Searched;

// What the search for a name in one listing chunk comes to: its entry, or the number of the chunk's next; the number in front is how many comparisons
// it made.
#[derive(Clone, Copy)]
pub enum Search {
    Found(u32, Report),
    Next(u32, u32),
}

// The search for a name in the bytes of chunk c, which nobody has to have checked.
pub fn find_in(file: &[u8], book: Record, name: &[u8], c: u64) -> Searched<Option<Report>>
    ensures { result ≡ finding_in file.now book name.now c }
{
    let bytes = book::chunk_bytes(file, book, c);
    let found = seek::find(bytes, book::limits(file, book), name);
    let Some(e) = found.answer else {
        return Searched {
            answer: None,
            count: found.count,
        };
    };
    Searched {
        answer: Some(report::report_of(file, book, c, e)),
        count: found.count,
    }
}

// Where the bytes of chunk c, as those of an index chunk, lead for a name.
pub fn child_in(file: &[u8], book: Record, name: &[u8], c: u64) -> Searched<Option<u64>>
    ensures { result ≡ child_in file.now book name.now c }
{
    let index = book::chunk_bytes(file, book, c);
    seek::choose(index, book::limits(file, book), name)
}

// The search for a name in chunk c, which is checked whole first; none where it is no listing chunk.
pub fn search_in(file: &[u8], book: Record, name: &[u8], c: u64) -> Option<Search>
    ensures { result ≡ search_in file.now book name.now c }
{
    let Ok(Chunk::Listing(_, next)) = book::checked_chunk(file, book, c) else {
        return None;
    };
    let found = find_in(file, book, name, c);
    match found.answer {
        Some(x) => Some(Search::Found(found.count, x)),
        None => Some(Search::Next(found.count, next)),
    }
}
