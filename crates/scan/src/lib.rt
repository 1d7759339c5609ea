// A second search for a name, along the chain of listing chunks from the first on; no index entry is followed.
#![tactic(auto)]

ghost use Rattle.std.specs.Prelude.{◌≡◌};
ghost use Rattle.lookup.specs.Reply.{reply_to, SameAsLookup};
ghost use Rattle.scan.specs.Scan.{plain_in, scanned};
ghost use Rattle.scan.specs.Complete.{CompleteOnChain};

use header::Record;
use lookup::Reply;
use refusals::Rule;
use search::Search;

// The search from the record's first listing chunk on. More chunks than the record counts are no chain of a book: the first of these is refused.
fn scan_chain(file: &[u8], book: Record, name: &[u8]) -> Reply
    ensures { result ≡ reply_to book (plain_in file.now book name.now) }
{
    let mut c = book.first;
    for _ in 0..book.count {
        match search::search_in(file, book, name, c) {
            Some(Search::Found(_, x)) => return Ok(Some(x)),
            Some(Search::Next(_, next)) => {
                if next == refusals::no_chunk() {
                    return Ok(None);
                }
                c = next as u64;
            }
            None => return Err(refusals::refuse(Rule::BadRecord)),
        }
    }
    Err(refusals::refuse(Rule::BadRecord))
}

// The entry of a name, found along the chain alone. On a book that opens it answers what lookup does; where only the index is broken it still finds
// exactly what is there.
pub fn scan(file: &[u8], book: Record, name: &[u8]) -> Reply
    ensures answer { result ≡ scanned file.now book name.now }
    ensures agrees { SameAsLookup file.now book name.now result }
    ensures complete { CompleteOnChain file.now book name.now result }
{
    let good_name = names::is_askable(name);
    let good_record = book::record_fits(file, book);
    if !good_name {
        return Err(refusals::refuse(Rule::BadName));
    }
    if !good_record {
        return Err(refusals::refuse(Rule::BadRecord));
    }
    scan_chain(file, book, name)
}
