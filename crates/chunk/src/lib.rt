// The check of one chunk by itself: refusals 8 to 12, in one pass over its entries.
#![tactic(auto)]

ghost use Rattle.std.specs.Prelude.{◌≡◌, [], ◌&&◌, ◌+◌, ◌-◌, ◌*◌, ◌/◌, ◌<◌, ◌≤◌, length};
ghost use Rattle.names.specs.Names.{below};
ghost use Rattle.chunk_fields.specs.ChunkFields.{first_place, spacing_of, quick_count};
ghost use Rattle.chunk.specs.Chunk.{entries_at, parsed_with, checked_entries, parsed_as, parsed};
ghost use Rattle.chunk.specs.Marks.{mark_right};
ghost use Rattle.chunk.specs.Answer.{chunk_of};

use entries::{Kind, Limits};
use refusals::Rule;

// What a chunk is: a listing chunk with the numbers of the one before and the one behind it, or an index chunk.
#[derive(Clone, Copy)]
pub enum Chunk {
    Listing(u32, u32),
    Index,
}

// An entry's index as a number of quick words, and how many entries it stands behind the last that has one.
#[derive(Clone, Copy)]
struct Mark {
    word: usize,
    past: usize,
}

// How many quick words `total` entries have.
fn quick_words(total: usize, n: usize) -> usize
    requires { (0 < total) × (0 < n) }
    ensures { result ≡ quick_count n total }
{
    (total - 1) / n
}

// The mark of the next entry.
fn next_mark(m: Mark, n: usize) -> Mark
    requires { (m.past < n) × (m.word < 65536) }
    ensures { (result.past < n) × (result.word * n + result.past ≡ m.word * n + m.past + 1) }
{
    if m.past + 1 < n {
        Mark {
            word: m.word,
            past: m.past + 1,
        }
    } else {
        Mark {
            word: m.word + 1,
            past: 0,
        }
    }
}

// Whether the names rose so far, and this one comes after the one before it.
fn still_rises(rises: bool, last: &[u8], name: &[u8]) -> bool
    ensures { result ≡ (rises && below last.now name.now) }
{
    if rises {
        names::is_below(last, name)
    } else {
        false
    }
}

// Whether the quick words were right so far, and the entry at this mark stands where its own says, if it has one.
fn still_quick(c: &[u8], quick: bool, first: usize, m: Mark, at: usize) -> bool
    requires { first ≤ 20 }
    ensures { result ≡ (quick && mark_right c.now first m.word m.past at) }
{
    if quick {
        if 0 < m.past {
            return true;
        }
        if m.word == 0 {
            return true;
        }
        let word = fields::le16(c, chunk_fields::quick_place(m.word)) as usize;
        return first + word == at;
    }
    false
}

// The answer on a chunk that keeps every rule.
fn good_chunk(c: &[u8], kind: Kind) -> Chunk
    ensures { Ok result ≡ chunk_of (parsed_with kind c.now []) }
{
    match kind {
        Kind::Listing => {
            Chunk::Listing(chunk_fields::previous_link(c), chunk_fields::next_link(c))
        }
        Kind::Index => Chunk::Index,
    }
}

// The answer by `total` entries that have to end at `end`: refusal 10, 12 or 11, in this order. So the walk goes on past a fault of order or of a quick word.
fn check_entries(
    c: &[u8],
    limits: Limits,
    kind: Kind,
    n: usize,
    total: usize,
    end: usize,
) -> Result<Chunk, Rule>
    requires { (0 < n) × (2 * ((total - 1) / n) ≤ 4094) }
    ensures { result ≡ chunk_of (checked_entries n kind c.now (entries_at limits kind c.now end total (first_place kind))) }
{
    let first = chunk_fields::first_place(kind);
    let mut at = first;
    let mut last = &c[0..0];
    let mut rises = true;
    let mut quick = true;
    let mut m = Mark { word: 0, past: 0 };
    let mut left = total;
    while 0 < left {
        let Some(e) = entries::item_at(c, limits, kind, at) else {
            return Err(Rule::BadEntry);
        };
        let name = &c[e.start..e.start + e.len];
        rises = still_rises(rises, last, name);
        quick = still_quick(c, quick, first, m, e.at);
        m = next_mark(m, n);
        last = name;
        at = e.next;
        left -= 1;
    }
    if at != end {
        return Err(Rule::BadEntry);
    }
    if !rises {
        return Err(Rule::NameOrder);
    }
    if !quick {
        return Err(Rule::QuickWords);
    }
    Ok(good_chunk(c, kind))
}

// The answer on a chunk of 4,096 bytes that has the tag of a kind.
fn check_kind(c: &[u8], limits: Limits, kind: Kind) -> Result<Chunk, Rule>
    requires { length c.now ≡ 4096 }
    ensures { result ≡ chunk_of (parsed_as (spacing_of limits.density) limits kind c.now) }
{
    let n = chunk_fields::spacing(limits.density);
    let total = chunk_fields::entry_count(c) as usize;
    let tail = chunk_fields::tail_length(c) as usize;
    if total < 1 {
        return Err(Rule::ChunkFrame);
    }
    if tail < 2 + 2 * quick_words(total, n) {
        return Err(Rule::ChunkFrame);
    }
    if 4096 - chunk_fields::first_place(kind) < tail {
        return Err(Rule::ChunkFrame);
    }
    check_entries(c, limits, kind, n, total, 4096 - tail)
}

// What a chunk is.
pub fn check(c: &[u8], limits: Limits) -> Result<Chunk, Rule>
    ensures { result ≡ chunk_of (parsed limits c.now) }
{
    if c.len() != 4096 {
        return Err(Rule::ChunkTag);
    }
    if chunk_fields::has_tag(c, Kind::Listing) {
        return check_kind(c, limits, Kind::Listing);
    }
    if chunk_fields::has_tag(c, Kind::Index) {
        return check_kind(c, limits, Kind::Index);
    }
    Err(Rule::ChunkTag)
}
