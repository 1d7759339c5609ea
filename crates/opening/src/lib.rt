// Opening a book: the head, each chunk, the chain of listing chunks, the tree of index chunks.
#![tactic(auto)]

ghost use Rattle.std.specs.Prelude.{◌≡◌, true, ◌<◌, ◌≤◌};
ghost use Rattle.fields.specs.Same.{same};
ghost use Rattle.refusals.specs.Refusals.{no_chunk};
ghost use Rattle.names.specs.Names.{below};
ghost use Rattle.tree.specs.Shape.{first_name, last_name, listing_chunk, index_chunk};
ghost use Rattle.tree.specs.Tree.{top};
ghost use Rattle.tree.specs.Walk.{chain_run, walk_tree, arrived, listings as listings_of};
ghost use Rattle.book.specs.Book.{directory_of, shape_of};
ghost use Rattle.opening.specs.Opened.{chunks_then, linked_book, opened};
ghost use Rattle.opening.specs.Passes.{GoodBook, surveyed, link_of, FirstHit, leaf_of, named_child, progress_of};

use chunk::Chunk;
use entries::{Kind, Place};
use header::Record;
use refusals::{Refusal, Rule};

// What a chunk of the chain leads to. An option of an option would say less of the three.
#[derive(Clone, Copy)]
enum Link {
    Broken,
    Last,
    Next(u64),
}

// The check of all chunks, from 0 on: the first refusal, or the number of listing chunks.
fn survey_chunks(file: &[u8], book: Record) -> Result<u64, Refusal>
    requires { book.count ≤ 4096 }
    ensures { result ≡ surveyed (directory_of file.now book) book.count 0 0 }
{
    let mut listings: u64 = 0;
    for c in 0..book.count {
        match book::checked_chunk(file, book, c) {
            Err(n) => return Err(refusals::refuse_at(n, c as u32)),
            Ok(Chunk::Listing(_, _)) => listings += 1,
            Ok(Chunk::Index) => {}
        }
    }
    Ok(listings)
}

// Whether c is a listing chunk of a book whose chunks are good. This and `is_index` stay two: each is the definition that its clause cites.
fn is_listing(file: &[u8], book: Record, c: u64) -> bool
    requires { GoodBook file.now book }
    ensures { result ≡ listing_chunk (directory_of file.now book) (shape_of book) c }
{
    if book.count <= c {
        return false;
    }
    match chunk_fields::kind_of(book::chunk_bytes(file, book, c)) {
        Kind::Listing => true,
        Kind::Index => false,
    }
}

// Whether c is an index chunk of a book whose chunks are good.
fn is_index(file: &[u8], book: Record, c: u64) -> bool
    requires { GoodBook file.now book }
    ensures { result ≡ index_chunk (directory_of file.now book) (shape_of book) c }
{
    if book.count <= c {
        return false;
    }
    match chunk_fields::kind_of(book::chunk_bytes(file, book, c)) {
        Kind::Listing => false,
        Kind::Index => true,
    }
}

// The first entry of a chunk of a good book.
fn first_of(file: &[u8], book: Record, c: u64) -> Option<Place>
    requires { (GoodBook file.now book) × (c < book.count) }
    ensures { FirstHit file.now book c result }
{
    let bytes = book::chunk_bytes(file, book, c);
    quickref::first_entry(
        bytes,
        book::limits(file, book),
        chunk_fields::kind_of(bytes),
    )
}

// The first name of a chunk of a good book, in its bytes.
fn first_name(file: &[u8], book: Record, c: u64) -> &[u8]
    requires { (GoodBook file.now book) × (c < book.count) }
    ensures { result.now ≡ first_name (directory_of file.now book c) }
{
    let bytes = book::chunk_bytes(file, book, c);
    let Some(e) = first_of(file, book, c) else {
        return &file[0..0];
    };
    let start = e.start;
    let len = e.len;
    &bytes[start..start + len]
}

// Whether a name is, byte for byte, the first name of chunk c.
fn is_named(file: &[u8], book: Record, c: u64, name: &[u8]) -> bool
    requires { (GoodBook file.now book) × (c < book.count) }
    ensures { result ≡ same name.now (first_name (directory_of file.now book c)) }
{
    fields::equal(name, first_name(file, book, c))
}

// Whether a name is below the first name of chunk c.
fn is_before(file: &[u8], book: Record, c: u64, name: &[u8]) -> bool
    requires { (GoodBook file.now book) × (c < book.count) }
    ensures { result ≡ below name.now (first_name (directory_of file.now book c)) }
{
    names::is_below(name, first_name(file, book, c))
}

// Whether the last name of listing chunk c is below the first name of chunk d.
fn names_rise(file: &[u8], book: Record, c: u64, d: u64) -> bool
    requires { (GoodBook file.now book) × (d < book.count) × (listing_chunk (directory_of file.now book) (shape_of book) c ≡ true) }
    ensures { result ≡ below (last_name (directory_of file.now book c)) (first_name (directory_of file.now book d)) }
{
    let bytes = book::chunk_bytes(file, book, c);
    let Some(e) = quickref::last_entry(bytes, book::limits(file, book), Kind::Listing) else {
        return false;
    };
    let start = e.start;
    let len = e.len;
    is_before(file, book, d, &bytes[start..start + len])
}

// Where chunk c of the chain, behind the chunk `previous`, leads.
fn link_from(file: &[u8], book: Record, previous: u64, c: u64) -> Link
    requires { GoodBook file.now book }
    ensures { result ≡ link_of (directory_of file.now book) (shape_of book) previous c }
{
    if !is_listing(file, book, c) {
        return Link::Broken;
    }
    let bytes = book::chunk_bytes(file, book, c);
    if chunk_fields::previous_link(bytes) as u64 != previous {
        return Link::Broken;
    }
    let next = chunk_fields::next_link(bytes) as u64;
    if next == refusals::no_chunk() as u64 {
        return Link::Last;
    }
    if !is_listing(file, book, next) {
        return Link::Broken;
    }
    if names_rise(file, book, c, next) {
        Link::Next(next)
    } else {
        Link::Broken
    }
}

// Whether the chain is right, with so many listing chunks on it.
fn chain_linked(file: &[u8], book: Record, listings: u64) -> bool
    requires { GoodBook file.now book }
    ensures { result ≡ chain_run (directory_of file.now book) (shape_of book) listings no_chunk book.first }
{
    let last = book.last;
    let mut previous = refusals::no_chunk() as u64;
    let mut c = book.first;
    let mut left = listings;
    while 0 < left {
        left -= 1;
        match link_from(file, book, previous, c) {
            Link::Broken => {
                return false;
            }
            Link::Last => {
                if c != last {
                    return false;
                }
                return left == 0;
            }
            Link::Next(next) => {
                previous = c;
                c = next;
            }
        }
    }
    false
}

// The listing chunk c, at level 1 of the tree: which listing chunk must come next, and how many index chunks are left.
fn leaf(file: &[u8], book: Record, c: u64, left: u64) -> Option<(u64, u64)>
    requires { GoodBook file.now book }
    ensures { result ≡ leaf_of (directory_of file.now book) (shape_of book) c left }
{
    if !is_listing(file, book, c) {
        return None;
    }
    Some((
        chunk_fields::next_link(book::chunk_bytes(file, book, c)) as u64,
        left,
    ))
}

// The child of the entry of index chunk c at a place, if it is named as the entry says, and the place behind the entry.
fn named_child(file: &[u8], book: Record, c: u64, at: usize) -> Option<(u64, usize)>
    requires { GoodBook file.now book }
    ensures { result ≡ named_child file.now book c at }
{
    let bytes = book::chunk_bytes(file, book, c);
    let x = entries::item_at(bytes, book::limits(file, book), Kind::Index, at)?;
    let start = x.start;
    let len = x.len;
    if is_named(file, book, x.child, &bytes[start..start + len]) {
        Some((x.child, x.next))
    } else {
        None
    }
}

// The walk over the tree under chunk c of a level, from left to right: the listing chunk `expected` must come next, and `left` index chunks are left.
fn walk_tree(
    file: &[u8],
    book: Record,
    level: u64,
    c: u64,
    expected: u64,
    left: u64,
) -> Option<(u64, u64)>
    requires { GoodBook file.now book }
    ensures { result ≡ progress_of (walk_tree (directory_of file.now book) (shape_of book) level c expected left) }
{
    if level == 0 {
        return None;
    }
    if level == 1 {
        if c != expected {
            return None;
        }
        return leaf(file, book, c, left);
    }
    if left == 0 {
        return None;
    }
    if !is_index(file, book, c) {
        return None;
    }
    let mut at = chunk_fields::first_place(Kind::Index);
    let entries = chunk_fields::entry_count(book::chunk_bytes(file, book, c));
    let mut next = expected;
    let mut k = left - 1;
    for _ in 0..entries {
        let (child, behind) = named_child(file, book, c, at)?;
        let (e, l) = walk_tree(file, book, level - 1, child, next, k)?;
        next = e;
        k = l;
        at = behind;
    }
    Some((next, k))
}

// Whether the tree is right, with so many index chunks in it.
fn tree_right(file: &[u8], book: Record, indexes: u64) -> bool
    requires { GoodBook file.now book }
    ensures { result ≡ arrived (walk_tree (directory_of file.now book) (shape_of book) book.depth (top (shape_of book)) book.first indexes) }
{
    let Some((expected, left)) = walk_tree(
        file,
        book,
        book.depth,
        book::top_chunk(book),
        book.first,
        indexes,
    ) else {
        return false;
    };
    if expected == refusals::no_chunk() as u64 {
        left == 0
    } else {
        false
    }
}

// Chain and tree of a book whose chunks are good, with so many listing chunks.
fn open_links(file: &[u8], book: Record, listings: u64) -> Result<Record, Refusal>
    requires { (GoodBook file.now book) × (listings ≡ listings_of (directory_of file.now book) (shape_of book)) }
    ensures { result ≡ linked_book file.now book }
{
    if !chain_linked(file, book, listings) {
        return Err(refusals::refuse(Rule::BrokenChain));
    }
    if !tree_right(file, book, book.count - listings) {
        return Err(refusals::refuse(Rule::BrokenTree));
    }
    Ok(book)
}

// The chunks of a book whose head is good, then its links.
fn open_chunks(file: &[u8], book: Record) -> Result<Record, Refusal>
    requires { book.count ≤ 4096 }
    ensures { result ≡ chunks_then (directory_of file.now book) book.count 0 (linked_book file.now book) }
{
    let listings = survey_chunks(file, book)?;
    open_links(file, book, listings)
}

// Opens a book: the record of one that keeps every rule, or the first refusal.
#[tactic(auto, unfolding(crate::specs::Opened::opened))]
pub fn open(file: &[u8]) -> Result<Record, Refusal>
    ensures { result ≡ opened file.now }
{
    let book = header::read(file)?;
    open_chunks(file, book)
}
