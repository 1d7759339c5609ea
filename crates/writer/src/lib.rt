// The head of a new book: everything in front of the content.
#![tactic(auto)]

ghost use Rattle.std.specs.Prelude.{◌≡◌, ◌+◌, ◌*◌, ◌<◌, ◌≤◌, length, take};
ghost use mathlib.Core.List.{flatten, map};
ghost use Rattle.std.proofs.lemmas.List.Edits.{sets};
ghost use Rattle.entries.specs.Entry.{listing_at};
ghost use Rattle.chunk_fields.specs.ChunkFields.{spacing_of};
ghost use Rattle.entries.specs.Stored.{stored_of};
ghost use Rattle.source.specs.Source.{taken_of, rows_from};
ghost use Rattle.source.specs.Input.{given};
ghost use Rattle.pack.specs.Fill.{extent_from};
ghost use Rattle.pack.specs.Starts.{chunks_from};
ghost use Rattle.compose.specs.NewChunk.{new_chunk};
ghost use Rattle.compose.specs.Steps.{group_from};
ghost use Rattle.layout.specs.Headers.{file_header, section_zero, directory_header};
ghost use Rattle.layout.specs.Layout.{layout_of, layout_for, new_previous, new_next, chunks_of, head_bytes};
ghost use Rattle.writer.specs.Head.{written, output_for, RoundTripFor, ShortInput};
ghost use Rattle.writer.specs.Plan.{in_bounds, Next, open_with, starts_with, ListingPlanned, LevelPlanned, Planned, LevelFits, IndexFits, index_of, headers_of, Ready};

use entries::{Kind, Place};
use pack::Extent;
use refusals::{Refusal, Rule};
use source::Cursor;

// The listing chunks so far, as the input is read: their number, and the entries of the last one with their bytes.
#[derive(Clone, Copy)]
struct Open {
    chunks: usize,
    count: usize,
    bytes: usize,
}

// What is known of the chunks before any is written: the number of listing chunks, the depth, the number of all chunks.
#[derive(Clone, Copy)]
struct Sizes {
    listings: usize,
    depth: usize,
    count: usize,
}

// Whether the writer takes a density and a content length.
fn is_taken(density: u32, content: u64) -> bool
    ensures { result ≡ in_bounds density content }
{
    if 7 < density {
        return false;
    }
    if 0x3FFF_FFFF_FFFF_FFFF < content {
        return false;
    }
    true
}

// One listing entry more, which is written in `size` bytes: in the last chunk where it fits, else as the first of a new one. Then its place is stored, where `starts` has room.
fn add(starts: &mut [usize], n: usize, f: Open, e: Place, size: usize) -> Open
    requires { Next f e size }
    ensures { (result ≡ open_with n f e) × (starts.new ≡ starts_with n f e starts.old) }
{
    let bytes = f.bytes + size;
    if pack::fits_chunk(Kind::Listing, n, f.count, bytes) {
        return Open {
            chunks: f.chunks,
            count: f.count + 1,
            bytes,
        };
    }
    let j = f.chunks;
    let next = Open {
        chunks: j + 1,
        count: 1,
        bytes: size,
    };
    if starts.len() <= j {
        return next;
    }
    starts[j] = e.at;
    next
}

// The entry of the input at a place; bad where no more may be taken, or no good entry stands there. It is `source::step` for a listing level alone: small
// enough for the compiler to put it into the loop.
fn given_at(input: &[u8], content: u64, at: usize, left: usize) -> Option<Place>
    ensures { result ≡ taken_of left (listing_at content input.now at) }
{
    if left == 0 {
        return None;
    }
    entries::listing_at(input, at, content)
}

// Checks the input and plans the listing level, in one pass: the input is one good entry or more, one directly behind another to its end, none padded,
// with names that rise; else there is no number of listing chunks. Too many chunks are counted on, since a fault of the input goes before them.
fn plan_listing(input: &[u8], content: u64, n: usize, starts: &mut [usize]) -> Option<usize>
    ensures { ListingPlanned content input.now n starts.old starts.new result }
{
    if input.len() == 0 {
        return None;
    }
    let mut at: usize = 0;
    let mut left = input.len();
    let mut last = &input[0..0];
    // no chunk yet: as behind a full one
    let mut f = Open {
        chunks: 0,
        count: 0,
        bytes: 4096,
    };
    loop {
        let Some(e) = given_at(input, content, at, left) else {
            if at == input.len() {
                return Some(f.chunks);
            }
            return None;
        };
        let size = pack::entry_size(Kind::Listing, e);
        if e.next - e.at != size {
            return None;
        }
        let name = &input[e.start..e.start + e.len];
        if !names::is_below(last, name) {
            return None;
        }
        f = add(starts, n, f, e, size);
        last = name;
        at = e.next;
        left -= 1;
    }
}

// Stores the places of the first names of the chunks of an index level, which are numbered from `end` on; `starts` has those of the chunks before.
// Returns the number behind the last; none where `starts` has too little room. No `for`: how many chunks there are is known when the entries end.
fn plan_level(
    input: &[u8],
    content: u64,
    n: usize,
    starts: &mut [usize],
    base: usize,
    end: usize,
) -> Option<usize>
    requires { (base ≤ end) × (end ≤ length starts.old) }
    ensures { LevelPlanned content input.now n base end starts.old starts.new result }
{
    let left = end - base;
    let mut c = Cursor {
        kind: Kind::Index,
        at: base,
        left,
    };
    let mut j = end;
    loop {
        let Some(e) = source::step(input, &starts[..end], content, c) else {
            return Some(j);
        };
        if starts.len() <= j {
            return None;
        }
        let f = pack::fill(input, &starts[..end], content, c, n);
        starts[j] = e.at;
        c = Cursor {
            kind: Kind::Index,
            at: f.at,
            left: f.left,
        };
        j += 1;
    }
}

// Checks the input and plans all levels: the listing chunks, then index levels until one has a single chunk. `starts` then has the place of
// each chunk's first name.
fn plan(input: &[u8], content: u64, n: usize, starts: &mut [usize]) -> Result<Sizes, Rule>
    requires { length starts.old ≡ 4096 }
    ensures { Planned content input.now n starts.new result }
{
    let Some(m) = plan_listing(input, content, n, starts) else {
        return Err(Rule::BadInput);
    };
    if starts.len() < m {
        return Err(Rule::TooManyChunks);
    }
    let mut depth: usize = 1;
    let mut base: usize = 0;
    let mut end = m;
    while 1 < end - base {
        if depth == 5 {
            return Err(Rule::TooManyChunks);
        }
        let next = plan_level(input, content, n, starts, base, end).ok_or(Rule::TooManyChunks)?;
        base = end;
        end = next;
        depth += 1;
    }
    Ok(Sizes {
        listings: m,
        depth,
        count: end,
    })
}

// Writes chunk c, whose first entry is at a cursor; m is the number of listing chunks.
fn put_chunk(
    out: &mut [u8],
    input: &[u8],
    starts: &[usize],
    content: u64,
    from: Cursor,
    n: usize,
    m: u32,
    c: usize,
) -> Extent
    requires { (204 + 4096 * (c + 1) ≤ length out.old) × (c < 4096) }
    ensures { (result ≡ extent_from from.kind n 0 0 from.at from.left (rows_from content input.now starts.now from.kind from.left from.at)) × (out.new ≡ sets out.old (204 + 4096 * c) (new_chunk from.kind n (new_previous c) (new_next m c) (group_from content input.now starts.now from.kind from.left from.at result.count))) }
{
    let at = 204 + 4096 * c;
    compose::write_chunk(
        &mut out[at..at + 4096],
        input,
        starts,
        content,
        from,
        n,
        layout::previous(c as u32),
        layout::following(m, c as u32),
    )
}

// Writes the chunks of a level, whose first entry is at a cursor and which are numbered from `end` on; returns the number behind the last. No `for`, as there.
fn put_level(
    out: &mut [u8],
    input: &[u8],
    starts: &[usize],
    content: u64,
    from: Cursor,
    n: usize,
    m: u32,
    end: usize,
) -> usize
    requires { LevelFits content input.now starts.now from.kind n from.left from.at end (length out.old) }
    ensures { (result ≡ end + length (chunks_from content input.now (take end starts.now) from.kind n from.left from.at)) × (out.new ≡ sets out.old (204 + 4096 * end) (flatten (chunks_of from.kind n m end (map (map (stored_of input.now)) (chunks_from content input.now (take end starts.now) from.kind n from.left from.at))))) }
{
    let kind = from.kind;
    let mut c = from;
    let mut j = end;
    loop {
        let Some(_) = source::step(input, &starts[..end], content, c) else {
            return j;
        };
        let f = put_chunk(out, input, &starts[..end], content, c, n, m, j);
        c = Cursor {
            kind,
            at: f.at,
            left: f.left,
        };
        j += 1;
    }
}

// Writes the index levels over m listing chunks.
fn put_index(out: &mut [u8], input: &[u8], starts: &[usize], content: u64, n: usize, m: u32)
    requires { (IndexFits input.now starts.now (layout_of n (given content input.now)) m (length out.old)) × (0 < m) }
    ensures { out.new ≡ sets out.old (204 + 4096 * m) (flatten (index_of n m (layout_of n (given content input.now)))) }
{
    let mut base: usize = 0;
    let mut end = m as usize;
    while 1 < end - base {
        let left = end - base;
        let level = Cursor {
            kind: Kind::Index,
            at: base,
            left,
        };
        let next = put_level(out, input, starts, content, level, n, m, end);
        base = end;
        end = next;
    }
}

// Writes the file header.
fn put_file_header(out: &mut [u8], time: u32, language: u32, count: u32)
    requires { (204 ≤ length out.old) × (count ≤ 4096) }
    ensures { out.new ≡ sets out.old 0 (file_header time language count) }
{
    let words = [
        0x4653_5449u32,
        3,
        0x60,
        1,
        time,
        language,
        0x7C01_FD10,
        0x11D0_7BAA,
        0xA000_0C9E,
        0xECE6_22C9,
        0x7C01_FD11,
        0x11D0_7BAA,
        0xA000_0C9E,
        0xECE6_22C9,
        0x60,
        0,
        24,
        0,
        0x78,
        0,
        84 + 4096 * count,
        0,
        204 + 4096 * count,
        0,
    ];
    compose::put_words(out, 0, &words);
}

// Writes section 0; size is the file's length.
fn put_section(out: &mut [u8], size: u64)
    requires { 204 ≤ length out.old }
    ensures { out.new ≡ sets out.old 0x60 (section_zero size) }
{
    let words = [
        0x1FEu32,
        0,
        (size % 0x1_0000_0000) as u32,
        (size / 0x1_0000_0000) as u32,
        0,
        0,
    ];
    compose::put_words(out, 0x60, &words);
}

// What stands in most of the unknown words of the directory's header.
const UNKNOWN_WORD: u32 = 0xFFFF_FFFF;

// Writes the directory's header.
fn put_directory_header(
    out: &mut [u8],
    language: u32,
    density: u32,
    depth: u32,
    root: u32,
    last: u32,
    count: u32,
)
    requires { 204 ≤ length out.old }
    ensures { out.new ≡ sets out.old 0x78 (directory_header language density depth root last count) }
{
    let words = [
        0x5053_5449u32,
        1,
        0x54,
        0x0A,
        4096,
        density,
        depth,
        root,
        0,
        last,
        UNKNOWN_WORD,
        count,
        language,
        0x5D02_926A,
        0x11D0_212E,
        0xA000_F99D,
        0xECE6_22C9,
        0x54,
        UNKNOWN_WORD,
        UNKNOWN_WORD,
        UNKNOWN_WORD,
    ];
    compose::put_words(out, 0x78, &words);
}

// Writes all headers of a book of m listing chunks, with a depth, `count` chunks and so much content.
fn put_headers(
    out: &mut [u8],
    density: u32,
    time: u32,
    language: u32,
    content: u64,
    m: usize,
    depth: usize,
    count: usize,
)
    requires { (204 ≤ length out.old) × (0 < m) × (m ≤ count) × (count ≤ 4096) × (depth ≤ 5) × (content < 0x4000_0000_0000_0000) }
    ensures { out.new ≡ sets out.old 0 (headers_of density time language content m depth count) }
{
    put_file_header(out, time, language, count as u32);
    put_section(out, 204 + 4096 * (count as u64) + content);
    put_directory_header(
        out,
        language,
        density,
        depth as u32,
        layout::root_chunk(depth as u32, count as u32),
        (m - 1) as u32,
        count as u32,
    );
}

// Writes the head.
fn put_head(
    out: &mut [u8],
    entries: &[u8],
    starts: &[usize],
    n: usize,
    density: u32,
    time: u32,
    language: u32,
    content: u64,
    m: usize,
    depth: usize,
    count: usize,
)
    requires ready { Ready entries.now starts.now (layout_of n (given content entries.now)) m depth count (length out.old) }
    requires n_value { (n ≡ spacing_of density) × (content < 0x4000_0000_0000_0000) }
    ensures { out.new ≡ sets out.old 0 (head_bytes density time language content (layout_of n (given content entries.now))) }
{
    put_headers(out, density, time, language, content, m, depth, count);
    let first = Cursor {
        kind: Kind::Listing,
        at: 0,
        left: entries.len(),
    };
    put_level(out, entries, starts, content, first, n, m as u32, 0);
    put_index(out, entries, starts, content, n, m as u32);
}

// Writes the head of a book with these entries, one directly behind another, and content of that length; returns the head's length, or refusal 18, 19 or 20.
pub fn write_head(
    entries: &[u8],
    density: u32,
    time: u32,
    language: u32,
    content_length: u64,
    out: &mut [u8],
) -> Result<u64, Refusal>
    ensures answer { result ≡ written entries.now density content_length (length out.old) }
    ensures output { out.new ≡ output_for result (head_bytes density time language content_length (layout_for density content_length entries.now)) out.old }
    ensures round_trip { RoundTripFor result density time language content_length entries.now out.new }
    ensures input { ShortInput result content_length entries.now }
{
    if !is_taken(density, content_length) {
        return Err(refusals::refuse(Rule::BadInput));
    }
    let n = chunk_fields::spacing(density as u64);
    let mut starts = [0usize; 4096];
    let shape = plan(entries, content_length, n, &mut starts)?;
    let len = 204 + 4096 * shape.count;
    if out.len() < len {
        return Err(refusals::refuse(Rule::ShortOutput));
    }
    put_head(
        out,
        entries,
        &starts,
        n,
        density,
        time,
        language,
        content_length,
        shape.listings,
        shape.depth,
        shape.count,
    );
    Ok(len as u64)
}
