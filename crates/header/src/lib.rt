// The two headers of a file put together: refusals 1 to 7, and the record.
#![tactic(auto)]

ghost use Rattle.std.specs.Prelude.{◌≡◌};
ghost use Rattle.header.specs.Header.{record_from, directory_then, section_then, header_of};

use directory_header::DirectoryFields;
use file_header::FileFields;
use refusals::Rule;

// What opening hands out: version, time, language, the directory's place, the chunk count, density, depth, root, the first and the last
// listing chunk, and where the content starts.
#[derive(Clone, Copy)]
pub struct Record {
    pub version: u64,
    pub time: u64,
    pub language: u64,
    pub start: u64,
    pub count: u64,
    pub density: u64,
    pub depth: u64,
    pub root: u64,
    pub first: u64,
    pub last: u64,
    pub content: u64,
}

fn record_from(f: FileFields, d: DirectoryFields) -> Record
    ensures { result ≡ record_from f d }
{
    Record {
        version: f.version,
        time: f.time,
        language: f.language,
        start: f.start,
        count: d.count,
        density: d.density,
        depth: d.depth,
        root: d.root,
        first: d.first,
        last: d.last,
        content: f.content,
    }
}

// The checks 6 and 7, behind a file header that says f.
#[tactic(auto, unfolding(crate::specs::Header::directory_then))]
fn read_directory(file: &[u8], f: FileFields) -> Result<Record, Rule>
    ensures { result ≡ directory_then file.now f }
{
    let d = fields::part(file, f.start as usize, 84);
    let numbers = directory_header::check(d, f.length)?;
    Ok(record_from(f, numbers))
}

// The checks from 5 on.
#[tactic(auto, unfolding(crate::specs::Header::section_then, file_header::specs::FileHeader::section_zero_of))]
fn read_section(file: &[u8], f: FileFields) -> Result<Record, Rule>
    ensures { result ≡ section_then file.now f }
{
    let z = fields::part(file, f.section as usize, 24);
    file_header::check_section(z, file.len() as u64)?;
    read_directory(file, f)
}

// The checks 1 to 7 in their order, then the record.
#[tactic(auto, unfolding(crate::specs::Header::header_of))]
pub fn read(file: &[u8]) -> Result<Record, Rule>
    ensures { result ≡ header_of file.now }
{
    let h = fields::part(file, 0, 96);
    let f = file_header::check(h, file.len() as u64)?;
    read_section(file, f)
}
