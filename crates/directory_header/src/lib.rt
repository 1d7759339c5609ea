// The directory's header: refusals 6 and 7. d is the 84 bytes of the header.
#![tactic(auto)]

ghost use Rattle.std.specs.Prelude.{◌≡◌};
ghost use Rattle.fields.specs.Le.{le};
ghost use Rattle.directory_header.specs.DirectoryHeader.{directory_tagged, within, bounds_right, ends_right, root_right, directory_right, directory_fields_of, directory_header_of};

use refusals::Rule;

// What the directory's header says: the chunk size, density, depth, root, the first and the last listing chunk, the chunk count.
#[derive(Clone, Copy)]
pub struct DirectoryFields {
    pub size: u64,
    pub density: u64,
    pub depth: u64,
    pub root: u64,
    pub first: u64,
    pub last: u64,
    pub count: u64,
}

fn word(d: &[u8], at: usize) -> u64
    ensures { result ≡ le 4 d.now at }
{
    fields::le32(d, at) as u64
}

fn fields_of(d: &[u8]) -> DirectoryFields
    ensures { result ≡ directory_fields_of d.now }
{
    DirectoryFields {
        size: word(d, 0x10),
        density: word(d, 0x14),
        depth: word(d, 0x18),
        root: word(d, 0x1C),
        first: word(d, 0x20),
        last: word(d, 0x24),
        count: word(d, 0x2C),
    }
}

// Refusal 6: the directory's tag, its version, the header length at both places, and the GUID.
#[tactic(auto, unfolding(crate::specs::DirectoryHeader::directory_tagged))]
fn directory_tagged(d: &[u8]) -> bool
    ensures { result ≡ directory_tagged d.now }
{
    if !fields::stands_at(d, 0x00, b"ITSP") {
        return false;
    }
    if fields::le32(d, 0x04) != 1 {
        return false;
    }
    if fields::le32(d, 0x08) != 0x54 {
        return false;
    }
    if !fields::stands_at(
        d,
        0x34,
        b"\x6A\x92\x02\x5D\x2E\x21\xD0\x11\x9D\xF9\x00\xA0\xC9\x22\xE6\xEC",
    ) {
        return false;
    }
    fields::le32(d, 0x44) == 0x54
}

// Whether x is from low to high.
fn is_within(low: u64, high: u64, x: u64) -> bool
    ensures { result ≡ within low high x }
{
    if x < low {
        return false;
    }
    x <= high
}

// Chunk size, density, depth and count.
#[tactic(auto, unfolding(crate::specs::DirectoryHeader::bounds_right))]
fn bounds_right(f: DirectoryFields) -> bool
    ensures { result ≡ bounds_right f }
{
    if f.size != 4096 {
        return false;
    }
    if 7 < f.density {
        return false;
    }
    if !is_within(1, 5, f.depth) {
        return false;
    }
    is_within(1, 4096, f.count)
}

// The first and the last listing chunk.
#[tactic(auto, unfolding(crate::specs::DirectoryHeader::ends_right))]
fn ends_right(f: DirectoryFields) -> bool
    ensures { result ≡ ends_right f }
{
    if f.count <= f.first {
        return false;
    }
    f.last < f.count
}

// The root, by depth and count.
#[tactic(auto, unfolding(crate::specs::DirectoryHeader::root_right))]
fn root_right(f: DirectoryFields) -> bool
    ensures { result ≡ root_right f }
{
    if f.depth == 1 {
        if f.count != 1 {
            return false;
        }
        if f.root == refusals::no_chunk() as u64 {
            return true;
        }
        return f.root == 0;
    }
    if f.count == 1 {
        return false;
    }
    f.root < f.count
}

// Refusal 7: what the header says, with the directory's length n.
#[tactic(auto, unfolding(crate::specs::DirectoryHeader::directory_right))]
fn directory_right(f: DirectoryFields, n: u64) -> bool
    ensures { result ≡ directory_right f n }
{
    if !bounds_right(f) {
        return false;
    }
    if n != 84 + 4096 * f.count {
        return false;
    }
    if !ends_right(f) {
        return false;
    }
    root_right(f)
}

// The checks 6 and 7, then what the header says. n is the directory's length.
#[tactic(auto, unfolding(crate::specs::DirectoryHeader::directory_header_of))]
pub fn check(d: &[u8], n: u64) -> Result<DirectoryFields, Rule>
    ensures { result ≡ directory_header_of d.now n }
{
    if !directory_tagged(d) {
        return Err(Rule::DirectoryTags);
    }
    let f = fields_of(d);
    if !directory_right(f, n) {
        return Err(Rule::WrongDirectory);
    }
    Ok(f)
}
