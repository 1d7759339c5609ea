// One entry of a chunk.
#![tactic(auto)]

ghost use Rattle.std.specs.Prelude.{◌≡◌};
ghost use Rattle.entries.specs.Entry.{name_at, listing_at, index_at, item_at};

// The two kinds of chunks, and so of entries.
#[derive(Clone, Copy)]
pub enum Kind {
    Listing,
    Index,
}

// What a directory's chunks are held to: the density of the quick words, the chunk count, the content's length.
#[derive(Clone, Copy)]
pub struct Limits {
    pub density: u64,
    pub count: u64,
    pub content: u64,
}

// Where an entry stands in its chunk, where its name does, and its numbers (those that its kind lacks are 0); `next` is the place behind it.
#[derive(Clone, Copy)]
pub struct Place {
    pub at: usize,
    pub start: usize,
    pub len: usize,
    pub section: u64,
    pub offset: u64,
    pub size: u64,
    pub child: u64,
    pub next: usize,
}

// The length of the name of the entry at a place, and the name's place.
pub fn name_at(c: &[u8], at: usize) -> Option<(u64, usize)>
    ensures { result ≡ name_at c.now at }
{
    let (n, start) = encint::read(c, at)?;
    if n < 1 {
        return None;
    }
    if 1024 < n {
        return None;
    }
    if c.len() - start < n as usize {
        return None;
    }
    Some((n, start))
}

// The listing entry at a place.
pub fn listing_at(c: &[u8], at: usize, content: u64) -> Option<Place>
    ensures { result ≡ listing_at content c.now at }
{
    let (n, start) = name_at(c, at)?;
    let len = n as usize;
    let (section, p1) = encint::read(c, start + len)?;
    let (offset, p2) = encint::read(c, p1)?;
    let (size, next) = encint::read(c, p2)?;
    if 65535 < section {
        return None;
    }
    if section < 1 {
        if content < offset {
            return None;
        }
        if content - offset < size {
            return None;
        }
    }
    Some(Place {
        at,
        start,
        len,
        section,
        offset,
        size,
        child: 0,
        next,
    })
}

// The index entry at a place.
pub fn index_at(c: &[u8], at: usize, count: u64) -> Option<Place>
    ensures { result ≡ index_at count c.now at }
{
    let (n, start) = name_at(c, at)?;
    let len = n as usize;
    let (child, next) = encint::read(c, start + len)?;
    if count <= child {
        return None;
    }
    Some(Place {
        at,
        start,
        len,
        section: 0,
        offset: 0,
        size: 0,
        child,
        next,
    })
}

// The entry at a place, of a chunk of a kind.
pub fn item_at(c: &[u8], limits: Limits, kind: Kind, at: usize) -> Option<Place>
    ensures { result ≡ item_at limits kind c.now at }
{
    match kind {
        Kind::Listing => listing_at(c, at, limits.content),
        Kind::Index => index_at(c, at, limits.count),
    }
}
