// A file as a directory, by the numbers of a record, which may be made up: its chunks, and what they are held to. Here and above, a file and its record stay two
// parameters, since clauses over one struct of both would be the longer ones (DECISIONS 109).
#![tactic(auto)]

ghost use Rattle.std.specs.Prelude.{◌≡◌, ◌+◌, ◌-◌, ◌/◌};
ghost use Rattle.book.specs.Book.{limits_of, chunk_bytes, shape_of, record_fits, checked_chunk};
ghost use Rattle.tree.specs.Tree.{top};

use chunk::Chunk;
use entries::Limits;
use header::Record;
use refusals::Rule;

// Whether a record can be asked; it may be made up.
pub fn record_fits(file: &[u8], book: Record) -> bool
    ensures { result ≡ record_fits file.now book }
{
    if 7 < book.density {
        return false;
    }
    if book.depth < 1 {
        return false;
    }
    if 5 < book.depth {
        return false;
    }
    if book.count < 1 {
        return false;
    }
    if 4096 < book.count {
        return false;
    }
    book.content <= file.len() as u64
}

// What the chunks of a file are held to, by a record.
pub fn limits(file: &[u8], book: Record) -> Limits
    ensures { result ≡ limits_of file.now book }
{
    let len = file.len() as u64;
    let start = book.content;
    if len < start {
        return Limits {
            density: book.density,
            count: book.count,
            content: 0,
        };
    }
    Limits {
        density: book.density,
        count: book.count,
        content: len - start,
    }
}

// How many whole chunks stand behind a directory header at `start` in a file of `len` bytes.
fn chunk_room(len: usize, start: usize) -> usize
    ensures { result ≡ (len - (start + 84)) / 4096 }
{
    if len < start {
        return 0;
    }
    if len - start < 84 {
        return 0;
    }
    (len - start - 84) / 4096
}

// The bytes of chunk c, of the file itself; none where they do not lie inside it. No sum is made before it is known to stay inside.
pub fn chunk_bytes(file: &[u8], book: Record, c: u64) -> &[u8]
    ensures { result.now ≡ chunk_bytes file.now book c }
{
    let start = book.start as usize;
    let number = c as usize;
    if chunk_room(file.len(), start) <= number {
        return &file[0..0];
    }
    let at = start + 84 + 4096 * number;
    &file[at..at + 4096]
}

// The chunk that the tree hangs from and that a descent begins at.
pub fn top_chunk(book: Record) -> u64
    ensures { result ≡ top (shape_of book) }
{
    if book.depth == 1 {
        return book.first;
    }
    book.root
}

// What chunk number c leads to: a chunk, checked whole, or a refusal.
pub fn checked_chunk(file: &[u8], book: Record, c: u64) -> Result<Chunk, Rule>
    ensures { result ≡ checked_chunk file.now book c }
{
    if book.count <= c {
        return Err(Rule::BadRecord);
    }
    chunk::check(chunk_bytes(file, book, c), limits(file, book))
}
