// Where chunks are cut: how many entries a chunk takes.
#![tactic(auto)]

ghost use Rattle.std.specs.Prelude.{◌≡◌, ◌+◌};
ghost use Rattle.chunk_fields.specs.ChunkFields.{quick_count};
ghost use Rattle.source.specs.Source.{rows_from};
ghost use Rattle.pack.specs.Groups.{fits as fits_in};
ghost use Rattle.pack.specs.Fill.{size_of, fit_of, extent_from};

use entries::{Kind, Place};
use source::Cursor;

// The entries that a chunk takes: how many there are, the bytes that they take, and the cursor behind them: its place, and how many more may be taken.
#[derive(Clone, Copy)]
pub struct Extent {
    pub count: usize,
    pub bytes: usize,
    pub at: usize,
    pub left: usize,
}

// How many quick words stand in a chunk of `count` entries and one more: one for each n but the first; none for n = 0.
fn quick_words(count: usize, n: usize) -> usize
    ensures { result ≡ quick_count n (count + 1) }
{
    if n == 0 {
        return 0;
    }
    count / n
}

// Whether an entry behind `count` others fits a chunk, where all of them have `bytes` bytes.
pub fn fits_chunk(kind: Kind, n: usize, count: usize, bytes: usize) -> bool
    ensures { result ≡ fits_in kind n (count + 1) bytes }
{
    if 4096 < bytes {
        return false;
    }
    let words = quick_words(count, n);
    if 2047 < words {
        return false;
    }
    chunk_fields::first_place(kind) + bytes + (2 * words + 2) <= 4096
}

// How many bytes an entry takes where it is written from its numbers; 4,097 where its name alone is longer than a chunk.
pub fn entry_size(kind: Kind, e: Place) -> usize
    ensures { result ≡ size_of kind e }
{
    if 4096 < e.len {
        return 4097;
    }
    let name = encint::size(e.len as u64) + e.len;
    match kind {
        Kind::Listing => {
            name + encint::size(e.section) + encint::size(e.offset) + encint::size(e.size)
        }
        Kind::Index => name + encint::size(e.child),
    }
}

// The next entry of a chunk that has taken so much, if there is one and it fits, with the bytes of the chunk's entries up to this one.
pub fn next_fit(
    input: &[u8],
    starts: &[usize],
    content: u64,
    kind: Kind,
    n: usize,
    f: Extent,
) -> Option<(Place, usize)>
    ensures { result ≡ fit_of kind n f.count f.bytes (rows_from content input.now starts.now kind f.left f.at) }
{
    if 4096 < f.bytes {
        return None;
    }
    let c = Cursor {
        kind,
        at: f.at,
        left: f.left,
    };
    let e = source::step(input, starts, content, c)?;
    let bytes = f.bytes + entry_size(kind, e);
    if fits_chunk(kind, n, f.count, bytes) {
        return Some((e, bytes));
    }
    None
}

// The entries from a cursor on that go into one chunk: as many as fit.
pub fn fill(input: &[u8], starts: &[usize], content: u64, from: Cursor, n: usize) -> Extent
    ensures { result ≡ extent_from from.kind n 0 0 from.at from.left (rows_from content input.now starts.now from.kind from.left from.at) }
{
    let kind = from.kind;
    let mut f = Extent {
        count: 0,
        bytes: 0,
        at: from.at,
        left: from.left,
    };
    loop {
        let Some((e, bytes)) = next_fit(input, starts, content, kind, n, f) else {
            return f;
        };
        f = Extent {
            count: f.count + 1,
            bytes,
            at: e.next,
            left: f.left - 1,
        };
    }
}
