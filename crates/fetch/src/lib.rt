// Lookup in an opened book: the descent for a name, with no chunk checked again.
#![tactic(auto)]

ghost use Rattle.std.specs.Prelude.{◌≡◌, ◌≤◌};
ghost use Rattle.lookup.specs.Reply.{reply_to, SameAsLookup};
ghost use Rattle.fetch.specs.Fetch.{fetch_at, fetched, FoundStands};

use header::Record;
use lookup::Reply;
use refusals::Rule;

// What listing chunk c answers to a name.
fn fetch_leaf(file: &[u8], book: Record, name: &[u8], c: u64) -> Reply
    ensures { result ≡ reply_to book (fetch_at file.now book name.now 1 c) }
{
    Ok(search::find_in(file, book, name, c).answer)
}

// The descent from chunk c of a level on.
fn fetch_from(file: &[u8], book: Record, name: &[u8], level: u64, c: u64) -> Reply
    requires { 1 ≤ level }
    ensures { result ≡ reply_to book (fetch_at file.now book name.now level c) }
{
    let mut at = c;
    for _ in 1..level {
        let Some(below) = search::child_in(file, book, name, at).answer else {
            return Ok(None);
        };
        at = below;
    }
    fetch_leaf(file, book, name, at)
}

// The entry of a name in a book that was opened: where opening gives this record for these bytes, what lookup answers. On other bytes a name may be missed;
// what is found stands there all the same.
pub fn fetch(file: &[u8], book: Record, name: &[u8]) -> Reply
    ensures answer { result ≡ fetched file.now book name.now }
    ensures agrees { SameAsLookup file.now book name.now result }
    ensures stands { FoundStands file.now name.now result }
{
    if !names::is_askable(name) {
        return Err(refusals::refuse(Rule::BadName));
    }
    if !book::record_fits(file, book) {
        return Err(refusals::refuse(Rule::BadRecord));
    }
    fetch_from(file, book, name, book.depth, book::top_chunk(book))
}
