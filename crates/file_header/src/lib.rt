// The file header with section 0: refusals 1 to 5. h is the file's first 96 bytes, z the bytes of section 0, len the file's length.
#![tactic(auto)]

ghost use Rattle.std.specs.Prelude.{◌≡◌, ◌+◌, ◌^◌, ◌<◌, leb};
ghost use Rattle.file_header.specs.FileHeader.{version_field, header_end, time_field, language_field, section_start, section_length, directory_start, directory_length, content_start, file_tagged, version_right, placed, apart, lengths_right, places_right, content_right, sections_right, file_fields_of, file_header_of, section_zero_of};

use refusals::Rule;

// What the file header says: version, time, language, where section 0 starts, start and length of the directory, where the content starts.
#[derive(Clone, Copy)]
pub struct FileFields {
    pub version: u64,
    pub time: u64,
    pub language: u64,
    pub section: u64,
    pub start: u64,
    pub length: u64,
    pub content: u64,
}

fn version(h: &[u8]) -> u64
    ensures { result ≡ version_field h.now }
{
    fields::le32(h, 0x04) as u64
}

fn header_end(h: &[u8]) -> u64
    ensures { result ≡ header_end h.now }
{
    fields::le32(h, 0x08) as u64
}

fn time(h: &[u8]) -> u64
    ensures { result ≡ time_field h.now }
{
    fields::le32(h, 0x10) as u64
}

fn language(h: &[u8]) -> u64
    ensures { result ≡ language_field h.now }
{
    fields::le32(h, 0x14) as u64
}

fn section_start(h: &[u8]) -> u64
    ensures { result ≡ section_start h.now }
{
    fields::le64(h, 0x38)
}

fn section_length(h: &[u8]) -> u64
    ensures { result ≡ section_length h.now }
{
    fields::le64(h, 0x40)
}

fn directory_start(h: &[u8]) -> u64
    ensures { result ≡ directory_start h.now }
{
    fields::le64(h, 0x48)
}

fn directory_length(h: &[u8]) -> u64
    ensures { result ≡ directory_length h.now }
{
    fields::le64(h, 0x50)
}

// Where the content starts, once the directory is known to end inside the file.
fn content_start(h: &[u8]) -> u64
    requires { directory_start h.now + directory_length h.now < 2 ^ 64 }
    ensures { result ≡ content_start h.now }
{
    if version(h) == 2 {
        return directory_start(h) + directory_length(h);
    }
    fields::le64(h, 0x58)
}

// Refusal 2: the tag and both GUIDs.
#[tactic(auto, unfolding(crate::specs::FileHeader::file_tagged))]
fn file_tagged(h: &[u8]) -> bool
    ensures { result ≡ file_tagged h.now }
{
    if !fields::stands_at(h, 0x00, b"ITSF") {
        return false;
    }
    if !fields::stands_at(
        h,
        0x18,
        b"\x10\xFD\x01\x7C\xAA\x7B\xD0\x11\x9E\x0C\x00\xA0\xC9\x22\xE6\xEC",
    ) {
        return false;
    }
    fields::stands_at(
        h,
        0x28,
        b"\x11\xFD\x01\x7C\xAA\x7B\xD0\x11\x9E\x0C\x00\xA0\xC9\x22\xE6\xEC",
    )
}

// Refusal 3: the version, and the header length that goes with it.
#[tactic(auto, unfolding(crate::specs::FileHeader::version_right))]
fn version_right(h: &[u8]) -> bool
    ensures { result ≡ version_right h.now }
{
    let known = version(h);
    let end = header_end(h);
    if known == 2 {
        return end == 0x58;
    }
    if known == 3 {
        return end == 0x60;
    }
    false
}

// Whether n bytes from `at` on end at or before `end`. No sum is made, so none wraps.
fn ends_by(at: u64, n: u64, end: u64) -> bool
    ensures { result ≡ leb (at + n) end }
{
    if end < at {
        return false;
    }
    n <= end - at
}

// Whether n bytes from `at` on start at or behind the header's end and end inside the file.
fn is_placed(len: u64, end: u64, at: u64, n: u64) -> bool
    ensures { result ≡ placed len end at n }
{
    if at < end {
        return false;
    }
    ends_by(at, n, len)
}

// Whether m bytes from a on and n bytes from b on do not overlap.
fn are_apart(a: u64, m: u64, b: u64, n: u64) -> bool
    ensures { result ≡ apart a m b n }
{
    if ends_by(a, m, b) {
        return true;
    }
    ends_by(b, n, a)
}

// The length of section 0, and room for the directory's header.
#[tactic(auto, unfolding(crate::specs::FileHeader::lengths_right))]
fn lengths_right(h: &[u8]) -> bool
    ensures { result ≡ lengths_right h.now }
{
    if section_length(h) != 24 {
        return false;
    }
    84 <= directory_length(h)
}

// Section 0 and the directory: each between the header's end and the file's end, and apart.
#[tactic(auto, unfolding(crate::specs::FileHeader::places_right))]
fn places_right(h: &[u8], len: u64) -> bool
    ensures { result ≡ places_right h.now len }
{
    let end = header_end(h);
    let a = section_start(h);
    let m = section_length(h);
    let b = directory_start(h);
    let n = directory_length(h);
    if !is_placed(len, end, a, m) {
        return false;
    }
    if !is_placed(len, end, b, n) {
        return false;
    }
    are_apart(a, m, b, n)
}

// The content start, with a directory that ends inside the file.
#[tactic(auto, unfolding(crate::specs::FileHeader::content_right))]
fn content_right(h: &[u8], len: u64) -> bool
    requires { directory_start h.now + directory_length h.now < 2 ^ 64 }
    ensures { result ≡ content_right h.now len }
{
    let content = content_start(h);
    let a = section_start(h);
    let m = section_length(h);
    let b = directory_start(h);
    let n = directory_length(h);
    if !ends_by(a, m, content) {
        return false;
    }
    if !ends_by(b, n, content) {
        return false;
    }
    content <= len
}

// Refusal 4: lengths and places of section 0 and of the directory, and the content start.
#[tactic(auto, unfolding(crate::specs::FileHeader::sections_right))]
fn sections_right(h: &[u8], len: u64) -> bool
    ensures { result ≡ sections_right h.now len }
{
    if !lengths_right(h) {
        return false;
    }
    if !places_right(h, len) {
        return false;
    }
    content_right(h, len)
}

// What a header says whose directory ends inside the file.
fn fields_of(h: &[u8]) -> FileFields
    requires { directory_start h.now + directory_length h.now < 2 ^ 64 }
    ensures { result ≡ file_fields_of h.now }
{
    FileFields {
        version: version(h),
        time: time(h),
        language: language(h),
        section: section_start(h),
        start: directory_start(h),
        length: directory_length(h),
        content: content_start(h),
    }
}

// The checks 1 to 4 in their order, then what the header says.
#[tactic(auto, unfolding(crate::specs::FileHeader::file_header_of))]
pub fn check(h: &[u8], len: u64) -> Result<FileFields, Rule>
    ensures { result ≡ file_header_of h.now len }
{
    if len < 96 {
        return Err(Rule::ShortFile);
    }
    if !file_tagged(h) {
        return Err(Rule::FileTags);
    }
    if !version_right(h) {
        return Err(Rule::WrongVersion);
    }
    if !sections_right(h, len) {
        return Err(Rule::WrongSections);
    }
    Ok(fields_of(h))
}

// Check 5: the length that section 0 gives the file.
#[tactic(auto, unfolding(crate::specs::FileHeader::section_zero_of))]
pub fn check_section(z: &[u8], len: u64) -> Result<(), Rule>
    ensures { result ≡ section_zero_of z.now len }
{
    if fields::le64(z, 0x08) != len {
        return Err(Rule::WrongLength);
    }
    Ok(())
}
