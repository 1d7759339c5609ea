// The library's values as numbers for C: a record is its numbers in the order of its fields, a refusal its number plus 256 times its place, and an answer a
// code, with numbers in lent places. Code 0 comes with what was asked, 255 where there is none; what a code does not come with stays as it was.
#![tactic(auto)]

ghost use Rattle.std.specs.Prelude.{◌≡◌};
ghost use Rattle.page.specs.Page.{five_of};
ghost use Rattle.numbers.specs.Numbers.{record_in, record_numbers, refusal_code, open_code, open_record, lookup_code, lookup_numbers, reply_code, reply_numbers, batch_code, cursor_in, cursor_numbers, step_code, step_cursor, step_numbers, own_code, own_numbers, page_code, page_numbers, write_code, write_numbers};

use header::Record;
use listing::{Cursor, Step};
use lookup::{Answer, Reply};
use page::Page;
use refusals::Refusal;
use report::{Own, Report};

// The numbers of a record; `HODS_RECORD` in include/hodsplinter.h is how many there are.
pub type Numbers = [u64; 11];

// A refusal as one number.
pub fn code(r: Refusal) -> u64
    ensures { result ≡ refusal_code r }
{
    r.number() as u64 + 256 * (r.chunk_number() as u64)
}

// The record of these numbers. No `From`: record and array are both of other crates.
pub fn record_in(n: &Numbers) -> Record
    ensures { result ≡ record_in n.now }
{
    Record {
        version: n[0],
        time: n[1],
        language: n[2],
        start: n[3],
        count: n[4],
        density: n[5],
        depth: n[6],
        root: n[7],
        first: n[8],
        last: n[9],
        content: n[10],
    }
}

// The numbers of a record.
fn record_numbers(r: Record) -> Numbers
    ensures { result ≡ record_numbers r }
{
    [
        r.version, r.time, r.language, r.start, r.count, r.density, r.depth, r.root, r.first,
        r.last, r.content,
    ]
}

// What opening answers.
pub fn tell_opened(answer: Result<Record, Refusal>, numbers: &mut Numbers) -> u64
    ensures code { result ≡ open_code answer }
    ensures numbers { numbers.new ≡ open_record answer numbers.old }
{
    match answer {
        Ok(b) => {
            *numbers = record_numbers(b);
            0
        }
        Err(r) => code(r),
    }
}

// What lookup answers: the count of chunks, the five numbers of what was found, the count of comparisons.
pub fn tell_lookup(answer: Result<Answer, Refusal>, numbers: &mut [u64; 7]) -> u64
    ensures code { result ≡ lookup_code answer }
    ensures numbers { numbers.new ≡ lookup_numbers answer numbers.old }
{
    match answer {
        Ok(Answer::Found(n, x)) => {
            *numbers = [
                n.chunks as u64,
                x.place,
                x.length,
                x.section,
                x.offset,
                x.size,
                n.comparisons as u64,
            ];
            0
        }
        Ok(Answer::Absent(n)) => {
            numbers[0] = n.chunks as u64;
            numbers[6] = n.comparisons as u64;
            255
        }
        Err(r) => code(r),
    }
}

// The five numbers of a report.
fn five(x: Report) -> [u64; 5]
    ensures { result ≡ five_of x }
{
    [x.place, x.length, x.section, x.offset, x.size]
}

// What a search that leaves no trail answers: the five numbers of what was found.
pub fn tell_reply(reply: Reply, numbers: &mut [u64; 5]) -> u64
    ensures code { result ≡ reply_code reply }
    ensures numbers { numbers.new ≡ reply_numbers reply numbers.old }
{
    match reply {
        Ok(Some(x)) => {
            *numbers = five(x);
            0
        }
        Ok(None) => 255,
        Err(r) => code(r),
    }
}

// What a batch answers.
pub fn tell_batched(answer: Result<(), Refusal>) -> u64
    ensures { result ≡ batch_code answer }
{
    match answer {
        Ok(()) => 0,
        Err(r) => code(r),
    }
}

// The cursor of two numbers.
pub fn cursor_in(n: &[u64; 2]) -> Cursor
    ensures { result ≡ cursor_in n.now }
{
    Cursor {
        chunk: n[0],
        entry: n[1],
    }
}

// The two numbers of a cursor.
pub fn cursor_numbers(at: Cursor) -> [u64; 2]
    ensures { result ≡ cursor_numbers at }
{
    [at.chunk, at.entry]
}

// What a step answers: the cursor moved on, and the five numbers of the entry.
pub fn tell_step(step: Result<Step, Refusal>, cursor: &mut [u64; 2], numbers: &mut [u64; 5]) -> u64
    ensures code { result ≡ step_code step }
    ensures cursor { cursor.new ≡ step_cursor step cursor.old }
    ensures numbers { numbers.new ≡ step_numbers step numbers.old }
{
    match step {
        Ok(Step::Entry(x, next)) => {
            *cursor = cursor_numbers(next);
            *numbers = five(x);
            0
        }
        Ok(Step::End(_)) => 255,
        Err(r) => code(r),
    }
}

// Where own bytes stand, and how many they are.
pub fn tell_own(own: Option<Own>, numbers: &mut [u64; 2]) -> u64
    ensures code { result ≡ own_code own }
    ensures numbers { numbers.new ≡ own_numbers own numbers.old }
{
    match own {
        Some(x) => {
            *numbers = [x.place, x.length];
            0
        }
        None => 255,
    }
}

// What a page answers: its count of entries and the next chunk.
pub fn tell_page(page: Result<Page, Refusal>, numbers: &mut [u64; 2]) -> u64
    ensures code { result ≡ page_code page }
    ensures numbers { numbers.new ≡ page_numbers page numbers.old }
{
    match page {
        Ok(Page::Entries(n, next)) => {
            *numbers = [n as u64, next as u64];
            0
        }
        Ok(Page::Short) => 255,
        Err(r) => code(r),
    }
}

// What the writer answers: the length of the head.
pub fn tell_written(answer: Result<u64, Refusal>, numbers: &mut [u64; 1]) -> u64
    ensures code { result ≡ write_code answer }
    ensures numbers { numbers.new ≡ write_numbers answer numbers.old }
{
    match answer {
        Ok(n) => {
            *numbers = [n];
            0
        }
        Err(r) => code(r),
    }
}
