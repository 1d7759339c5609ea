// One chunk, written into a lent part of the output.
#![tactic(auto)]

ghost use Rattle.std.specs.Prelude.{◌≡◌, cond, ◌++◌, map, ◌+◌, ◌-◌, ◌*◌, ◌/◌, ◌<◌, ◌≤◌, eqb, length, replicate, take};
ghost use Rattle.std.proofs.lemmas.List.Edits.{sets};
ghost use Rattle.fields.specs.Le.{bytes};
ghost use Rattle.fields.specs.Part.{inside, part};
ghost use Rattle.put.specs.Put.{put};
ghost use Rattle.encint.specs.Encint.{encoded};
ghost use Rattle.entries.specs.declared.Kind.TheVariants.{Listing};
ghost use Rattle.chunk_fields.specs.ChunkFields.{first_place, count_place, quick_place};
ghost use Rattle.entries.specs.Stored.{stored_of, entry_bytes};
ghost use Rattle.source.specs.Source.{rows_from};
ghost use Rattle.pack.specs.Fill.{row_size, extent_from};
ghost use Rattle.compose.specs.NewChunk.{word_bytes, chunk_header, new_chunk};
ghost use Rattle.compose.specs.Steps.{mark_bytes, group_from, entries_only};

use entries::{Kind, Place};
use pack::Extent;
use source::Cursor;

// Writes 32-bit numbers one behind another at `at`.
fn write_words(out: &mut [u8], at: usize, words: &[u32])
    requires { at + 4 * length words.now ≤ length out.old }
    ensures { out.new ≡ sets out.old at (word_bytes words.now) }
{
    for (i, word) in words.iter().enumerate() {
        put::put32(out, at + 4 * i, *word);
    }
}

// Writes 32-bit numbers one behind another at `at` where they have room, and returns whether they have.
pub fn put_words(out: &mut [u8], at: usize, words: &[u32]) -> bool
    ensures answer { result ≡ inside out.old at (4 * length words.now) }
    ensures written { out.new ≡ put out.old at (word_bytes words.now) }
{
    if out.len() < at {
        return false;
    }
    if (out.len() - at) / 4 < words.len() {
        return false;
    }
    write_words(out, at, words);
    true
}

// Copies n bytes of the input from `start` on. Not `copy_from_slice`: with it the library for C would need `memmove` from outside.
fn put_run(out: &mut [u8], at: usize, input: &[u8], start: usize, n: usize)
    requires { (at + n ≤ length out.old) × (start + n ≤ length input.now) }
    ensures { out.new ≡ sets out.old at (part input.now start n) }
{
    for i in 0..n {
        out[at + i] = input[start + i];
    }
}

// Writes a name of n bytes that stands in the input at `start`, with its length, and returns the place behind it.
fn put_name(out: &mut [u8], at: usize, input: &[u8], start: usize, n: usize) -> usize
    requires { (at + length (encoded n) + n ≤ length out.old) × (start + n ≤ length input.now) }
    ensures { (result ≡ at + length (encoded n) + n) × (out.new ≡ sets out.old at (encoded n ++ part input.now start n)) }
{
    let from = at + encint::write(out, at, n as u64);
    put_run(out, from, input, start, n);
    from + n
}

// Writes the numbers of a listing entry.
fn put_numbers(out: &mut [u8], at: usize, section: u64, offset: u64, size: u64)
    requires { at + length (encoded section) + length (encoded offset) + length (encoded size) ≤ length out.old }
    ensures { out.new ≡ sets out.old at (encoded section ++ (encoded offset ++ encoded size)) }
{
    let from = at + encint::write(out, at, section);
    let then = from + encint::write(out, from, offset);
    encint::write(out, then, size);
}

// Writes an entry from its numbers.
fn put_entry(out: &mut [u8], at: usize, input: &[u8], kind: Kind, e: Place)
    requires { (at + row_size kind e ≤ length out.old) × (e.start + e.len ≤ length input.now) }
    ensures { out.new ≡ sets out.old at (entry_bytes kind (stored_of input.now e)) }
{
    let from = put_name(out, at, input, e.start, e.len);
    match kind {
        Kind::Listing => put_numbers(out, from, e.section, e.offset, e.size),
        Kind::Index => {
            encint::write(out, from, e.child);
        }
    }
}

// Writes the quick word of entry i, which stands `offset` bytes behind the first, if it has one.
fn put_quick_word(out: &mut [u8], i: usize, n: usize, offset: usize)
    requires { (length out.old ≡ 4096) × (2 * (i / n) ≤ count_place) × (offset < 65536) }
    ensures { out.new ≡ sets out.old (quick_place (i / n)) (mark_bytes n i offset) }
{
    if i == 0 {
        return;
    }
    if n == 0 {
        return;
    }
    if i % n != 0 {
        return;
    }
    put::put16(out, chunk_fields::quick_place(i / n), offset as u16);
}

// Writes the entries from a cursor on, as many as fit, with their quick words into a chunk of zeros. Returns what it took.
fn put_entries(
    out: &mut [u8],
    input: &[u8],
    starts: &[usize],
    content: u64,
    from: Cursor,
    n: usize,
) -> Extent
    requires { (length out.old ≡ 4096) × (out.old ≡ replicate (length out.old) 0) }
    ensures { (result ≡ extent_from from.kind n 0 0 from.at from.left (rows_from content input.now starts.now from.kind from.left from.at)) × (out.new ≡ entries_only from.kind n (group_from content input.now starts.now from.kind from.left from.at result.count)) }
{
    let kind = from.kind;
    let first = chunk_fields::first_place(kind);
    let mut f = Extent {
        count: 0,
        bytes: 0,
        at: from.at,
        left: from.left,
    };
    loop {
        let Some((e, bytes)) = pack::next_fit(input, starts, content, kind, n, f) else {
            return f;
        };
        put_entry(out, first + f.bytes, input, kind, e);
        put_quick_word(out, f.count, n, f.bytes);
        f = Extent {
            count: f.count + 1,
            bytes,
            at: e.next,
            left: f.left - 1,
        };
    }
}

// Writes the header of a chunk.
fn put_chunk_header(out: &mut [u8], kind: Kind, tail: u32, prev: u32, next: u32)
    requires { first_place Listing ≤ length out.old }
    ensures { out.new ≡ sets out.old 0 (chunk_header kind tail prev next) }
{
    match kind {
        Kind::Listing => {
            let words = [chunk_fields::LISTING_TAG, tail, 0, prev, next];
            put_words(out, 0, &words);
        }
        Kind::Index => {
            let words = [chunk_fields::INDEX_TAG, tail];
            put_words(out, 0, &words);
        }
    }
}

// Writes the header and the count of a chunk of `count` entries of `used` bytes.
fn put_frame(out: &mut [u8], kind: Kind, used: usize, count: usize, prev: u32, next: u32)
    requires { (length out.old ≡ 4096) × (first_place kind + used ≤ 4096) × (count < 65536) }
    ensures { out.new ≡ sets (sets out.old 0 (chunk_header kind (4096 - (first_place kind + used)) prev next)) count_place (bytes 2 count) }
{
    put_chunk_header(
        out,
        kind,
        (4096 - (chunk_fields::first_place(kind) + used)) as u32,
        prev,
        next,
    );
    put::put16(out, chunk_fields::COUNT_PLACE, count as u16);
}

// Writes the chunk whose first entry is at a cursor, with as many entries as fit; `prev` and `next` are for a listing chunk. Writes nothing
// where the lent part is no chunk.
pub fn write_chunk(
    out: &mut [u8],
    input: &[u8],
    starts: &[usize],
    content: u64,
    from: Cursor,
    n: usize,
    prev: u32,
    next: u32,
) -> Extent
    ensures answer { result ≡ extent_from from.kind n 0 0 from.at from.left (rows_from content input.now starts.now from.kind from.left from.at) }
    ensures written { out.new ≡ cond (eqb (length out.old) 4096) (new_chunk from.kind n prev next (map (stored_of input.now) (take result.count (rows_from content input.now starts.now from.kind from.left from.at)))) out.old }
{
    if out.len() != 4096 {
        return pack::fill(input, starts, content, from, n);
    }
    out.fill(0);
    let f = put_entries(out, input, starts, content, from, n);
    let kind = from.kind;
    put_frame(out, kind, f.bytes, f.count, prev, next);
    f
}
