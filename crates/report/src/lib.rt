// What is reported of an entry of a chunk: its five numbers, and where its own bytes stand. The chunk number, the place and the record may be any.
#![tactic(auto)]

ghost use Rattle.std.specs.Prelude.{◌≡◌, cond, ◌+◌, ◌-◌, leb};
ghost use Rattle.book.specs.Book.{chunk_place};
ghost use Rattle.report.specs.Report.{report_at, own_at};

use entries::Place;
use header::Record;

// The five numbers of an entry: where its name stands in the file, the name's length, section, offset, length.
#[derive(Clone, Copy)]
pub struct Report {
    pub place: u64,
    pub length: u64,
    pub section: u64,
    pub offset: u64,
    pub size: u64,
}

// The own bytes of an entry: where they stand in the file, and how many there are.
#[derive(Clone, Copy)]
pub struct Own {
    pub place: u64,
    pub length: u64,
}

// The place in a file of what stands at `start` in chunk c; 0 where that is not inside the file. Each part is known to fit before it is added.
fn place_in(len: usize, book: Record, c: usize, start: usize) -> u64
    ensures { result ≡ cond (leb (chunk_place book c + start) len) (chunk_place book c + start) 0 }
{
    let first = book.start as usize;
    if len < first {
        return 0;
    }
    if len - first < 84 {
        return 0;
    }
    let room = len - first - 84;
    if room / 4096 < c {
        return 0;
    }
    if room - 4096 * c < start {
        return 0;
    }
    (first + 84 + 4096 * c + start) as u64
}

// The five numbers of an entry of chunk c.
pub fn report_of(file: &[u8], book: Record, c: u64, e: Place) -> Report
    ensures { result ≡ report_at file.now book c e }
{
    Report {
        place: place_in(file.len(), book, c as usize, e.start),
        length: e.len as u64,
        section: e.section,
        offset: e.offset,
        size: e.size,
    }
}

// How far a place is behind another; 0 where it is not.
fn distance(from: usize, to: usize) -> u64
    ensures { result ≡ to - from }
{
    if to < from {
        return 0;
    }
    (to - from) as u64
}

// The own bytes of an entry of chunk c, as stored.
pub fn own_of(file: &[u8], book: Record, c: u64, e: Place) -> Own
    ensures { result ≡ own_at file.now book c e }
{
    Own {
        place: place_in(file.len(), book, c as usize, e.at),
        length: distance(e.at, e.next),
    }
}
