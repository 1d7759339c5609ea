// Parts of the lent file itself, and what is stored under an entry. The bytes and the record may be any.
#![tactic(auto)]

ghost use Rattle.std.specs.Prelude.{◌≡◌};
ghost use Rattle.fields.specs.Part.{part_of};
ghost use Rattle.content.specs.Content.{content_part};

use header::Record;
use report::Report;

// The bytes of the lent file itself from a place on; the empty part where they do not lie inside it.
pub fn part(file: &[u8], place: u64, length: u64) -> &[u8]
    ensures { result.now ≡ part_of file.now place length }
{
    fields::part(file, place as usize, length as usize)
}

// What is stored under an entry of section 0, of the lent file itself; the empty part for another section, and where it does not lie inside the file. No sum is
// made before it is known to stay inside.
pub fn content_part(file: &[u8], book: Record, x: Report) -> &[u8]
    ensures { result.now ≡ content_part file.now book x }
{
    let start = book.content as usize;
    let offset = x.offset as usize;
    if x.section != 0 {
        return &file[0..0];
    }
    if file.len() < start {
        return &file[0..0];
    }
    if file.len() - start < offset {
        return &file[0..0];
    }
    fields::part(file, start + offset, x.size as usize)
}
