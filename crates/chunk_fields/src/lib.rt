// The fields of a chunk, as stored: its tag, the length of its tail, its links, the number of its entries, and where its quick words stand.
#![tactic(auto)]

ghost use Rattle.std.specs.Prelude.{◌≡◌, min};
ghost use Rattle.fields.specs.Same.{stands_at};
ghost use Rattle.chunk_fields.specs.ChunkFields.{tag_of, kind_of, first_place, entry_count, tail_length, previous_link, next_link, quick_place, spacing_of};

use entries::Kind;

// The tags of both kinds as numbers of 32 bits.
pub const LISTING_TAG: u32 = 0x4C47_4D50;

pub const INDEX_TAG: u32 = 0x4947_4D50;

// Where the number of entries stands.
pub const COUNT_PLACE: usize = 4094;

// Whether the tag of a kind stands at the beginning.
pub fn has_tag(c: &[u8], kind: Kind) -> bool
    ensures { result ≡ stands_at c.now 0 (tag_of kind) }
{
    match kind {
        Kind::Listing => fields::stands_at(c, 0, b"PMGL"),
        Kind::Index => fields::stands_at(c, 0, b"PMGI"),
    }
}

// The kind of a chunk that is of one of the two, by its tag.
pub fn kind_of(c: &[u8]) -> Kind
    ensures { result ≡ kind_of c.now }
{
    if has_tag(c, Kind::Listing) {
        return Kind::Listing;
    }
    Kind::Index
}

// Where the first entry stands, which is behind the header.
pub fn first_place(kind: Kind) -> usize
    ensures { result ≡ first_place kind }
{
    match kind {
        Kind::Listing => 20,
        Kind::Index => 8,
    }
}

// The number of entries, as stored.
pub fn entry_count(c: &[u8]) -> u16
    ensures { result ≡ entry_count c.now }
{
    fields::le16(c, COUNT_PLACE)
}

// The length of the tail, as stored.
pub fn tail_length(c: &[u8]) -> u32
    ensures { result ≡ tail_length c.now }
{
    fields::le32(c, 4)
}

// The number of the listing chunk before this one, as stored.
pub fn previous_link(c: &[u8]) -> u32
    ensures { result ≡ previous_link c.now }
{
    fields::le32(c, 12)
}

// The number of the listing chunk behind this one, as stored.
pub fn next_link(c: &[u8]) -> u32
    ensures { result ≡ next_link c.now }
{
    fields::le32(c, 16)
}

// Where quick word k stands.
pub fn quick_place(k: usize) -> usize
    ensures { result ≡ quick_place k }
{
    if 2047 < k {
        return 0;
    }
    COUNT_PLACE - 2 * k
}

// The number of entries from one that has a quick word to the next. From density 16 on it is above every count of 16 bits, so that there is no quick word.
pub fn spacing(density: u64) -> usize
    ensures { result ≡ spacing_of (min density 16) }
{
    if density < 16 {
        1 + (1usize << density)
    } else {
        65537
    }
}
