// The library for C: numbers and byte slices. Each function is one call of the library, its answer told in numbers.
#![tactic(auto)]

ghost use Rattle.std.specs.Prelude.{◌≡◌, ◌↔◌, ℕ, ◌≤◌, length};
ghost use Rattle.names.specs.Names.{compared, order_code};
ghost use Rattle.opening.specs.Opened.{opened};
ghost use Rattle.lookup.specs.Lookup.{looked_up, trail_after};
ghost use Rattle.listing.specs.Listing.{start_of, stepped, owned_at};
ghost use Rattle.page.specs.Page.{page_of, page_in};
ghost use Rattle.scan.specs.Scan.{scanned};
ghost use Rattle.fetch.specs.Fetch.{fetched};
ghost use Rattle.batch.specs.Batch.{batch_of, answers_in};
ghost use Rattle.compare.specs.Compare.{compare_start, compare_step};
ghost use Rattle.layout.specs.Layout.{layout_for, head_bytes};
ghost use Rattle.writer.specs.Head.{written, output_for};
ghost use Rattle.numbers.specs.Numbers.{record_in, open_code, open_record, lookup_code, lookup_numbers, reply_code, reply_numbers, batch_code, cursor_in, cursor_numbers, step_code, step_cursor, step_numbers, own_code, own_numbers, page_code, page_numbers, part_length, write_code, write_numbers};
ghost use Rattle.differences.specs.Differences.{walks_in, walks_numbers, compare_code, compare_cursor, compare_numbers, compare_totals};

use listing::Cursor;
use numbers::Numbers;

// The order of names: 0 where a comes before b, 1 where they are equal, 2 where a comes behind b.
pub fn hods_name_order(a: &[u8], b: &[u8]) -> u64
    ensures { result ≡ order_code (compared a.now b.now) }
{
    names::order_of(a, b)
}

// Opens a book: 0 and its record, or the refusal with nothing changed.
pub fn hods_open(file: &[u8], record: &mut Numbers) -> u64
    ensures answer { result ≡ open_code (opened file.now) }
    ensures numbers { «record».new ≡ open_record (opened file.now) «record».old }
{
    numbers::tell_opened(opening::open(file), record)
}

// Looks a name up: 0 found (count of chunks, name's place, name's length, section, offset, length, count of comparisons), 255 absent (the two counts
// alone), or the refusal with nothing changed. The trail gets the chunks of the descent.
pub fn hods_lookup(
    file: &[u8],
    record: &Numbers,
    name: &[u8],
    trail: &mut [u32],
    answer: &mut [u64; 7],
) -> u64
    ensures answer { result ≡ lookup_code (looked_up file.now (record_in «record».now) name.now (length trail.old)) }
    ensures trail { trail.new ≡ trail_after file.now (record_in «record».now) name.now trail.old }
    ensures numbers { answer.new ≡ lookup_numbers (looked_up file.now (record_in «record».now) name.now (length trail.old)) answer.old }
{
    let found = lookup::lookup(file, numbers::record_in(record), name, trail);
    numbers::tell_lookup(found, answer)
}

// Looks a name up along the chain alone: 0 found (name's place, name's length, section, offset, length); 255 absent, or the refusal, with nothing changed.
// On a book that opens, with its record, the number is that of lookup.
pub fn hods_scan(file: &[u8], record: &Numbers, name: &[u8], answer: &mut [u64; 5]) -> u64
    ensures answer { result ≡ reply_code (scanned file.now (record_in «record».now) name.now) }
    ensures numbers { answer.new ≡ reply_numbers (scanned file.now (record_in «record».now) name.now) answer.old }
    ensures agrees { opened file.now ≡ Ok (record_in «record».now) → (places : ℕ) → 5 ≤ places → result ≡ lookup_code (looked_up file.now (record_in «record».now) name.now places) }
{
    let found = scan::scan(file, numbers::record_in(record), name);
    numbers::tell_reply(found, answer)
}

// Looks a name up in a book that was opened, with no chunk checked again: 0 found (name's place, name's length, section, offset, length); 255 absent, or the
// refusal, with nothing changed. On a book that opens, with its record, the number is that of lookup; on other bytes a name may be missed.
pub fn hods_lookup_opened(file: &[u8], record: &Numbers, name: &[u8], answer: &mut [u64; 5]) -> u64
    ensures answer { result ≡ reply_code (fetched file.now (record_in «record».now) name.now) }
    ensures numbers { answer.new ≡ reply_numbers (fetched file.now (record_in «record».now) name.now) answer.old }
    ensures agrees { opened file.now ≡ Ok (record_in «record».now) → (places : ℕ) → 5 ≤ places → result ≡ lookup_code (looked_up file.now (record_in «record».now) name.now places) }
{
    let found = fetch::fetch(file, numbers::record_in(record), name);
    numbers::tell_reply(found, answer)
}

// Opens the book and looks up names that stand one behind another, each an ENCINT of its length and its bytes: 0 with 32 bytes a name at the front of
// `answers`; or the refusal of opening, or 22, with nothing changed.
pub fn hods_batch(file: &[u8], names: &[u8], answers: &mut [u8]) -> u64
    ensures answer { result ≡ batch_code (batch_of file.now names.now (length answers.old)) }
    ensures answers { answers.new ≡ answers_in file.now names.now answers.old }
{
    numbers::tell_batched(batch::batch(file, names, answers))
}

// The cursor at the start of a book's listing.
pub fn hods_start(record: &Numbers, cursor: &mut [u64; 2]) -> u64
    ensures answer { result ≡ 0 }
    ensures numbers { cursor.new ≡ cursor_numbers (start_of (record_in «record».now)) }
{
    *cursor = numbers::cursor_numbers(Cursor::start(numbers::record_in(record)));
    0
}

// The entry at a cursor: 0 with its five numbers and the cursor moved on, 255 at the end with nothing changed, or the refusal with nothing changed.
pub fn hods_step(file: &[u8], record: &Numbers, cursor: &mut [u64; 2], entry: &mut [u64; 5]) -> u64
    ensures answer { result ≡ step_code (stepped file.now (record_in «record».now) (cursor_in cursor.old)) }
    ensures cursor { cursor.new ≡ step_cursor (stepped file.now (record_in «record».now) (cursor_in cursor.old)) cursor.old }
    ensures numbers { entry.new ≡ step_numbers (stepped file.now (record_in «record».now) (cursor_in cursor.old)) entry.old }
{
    let at = numbers::cursor_in(cursor);
    let told = at.step(file, numbers::record_in(record));
    numbers::tell_step(told, cursor, entry)
}

// The own bytes of the entry at a cursor, as stored: 0 with their place in the file and how many they are; 255, with nothing changed, where a step gives
// no entry.
pub fn hods_own(file: &[u8], record: &Numbers, cursor: &[u64; 2], part: &mut [u64; 2]) -> u64
    ensures answer { result ≡ own_code (owned_at file.now (record_in «record».now) (cursor_in cursor.now)) }
    ensures numbers { part.new ≡ own_numbers (owned_at file.now (record_in «record».now) (cursor_in cursor.now)) part.old }
    ensures step { (result ≡ 0) ↔ (step_code (stepped file.now (record_in «record».now) (cursor_in cursor.now)) ≡ 0) }
{
    let at = numbers::cursor_in(cursor);
    let own = at.own(file, numbers::record_in(record));
    numbers::tell_own(own, part)
}

// The entries of one listing chunk, five numbers each: 0 with their count and the next chunk, 255 where there are too few places, or the refusal.
pub fn hods_chunk_page(
    file: &[u8],
    record: &Numbers,
    chunk: u64,
    entries: &mut [u64],
    next: &mut [u64; 2],
) -> u64
    ensures answer { result ≡ page_code (page_of file.now (record_in «record».now) chunk (length entries.old)) }
    ensures entries { entries.new ≡ page_in file.now (record_in «record».now) chunk entries.old }
    ensures numbers { next.new ≡ page_numbers (page_of file.now (record_in «record».now) chunk (length entries.old)) next.old }
{
    let page = page::chunk_page(file, numbers::record_in(record), chunk, entries);
    numbers::tell_page(page, next)
}

// The start of a comparison.
pub fn hods_compare_start(one: &Numbers, two: &Numbers, cursor: &mut [u64; 14]) -> u64
    ensures answer { result ≡ 0 }
    ensures cursor { cursor.new ≡ walks_numbers (compare_start (record_in one.now) (record_in two.now)) }
{
    let at = compare::start(numbers::record_in(one), numbers::record_in(two));
    *cursor = differences::walks_numbers(at);
    0
}

// The next difference of a comparison: 0 with its numbers and the cursor moved on, 255 at the end with the totals, or the refusal beside its book.
pub fn hods_compare_step(
    file1: &[u8],
    one: &Numbers,
    file2: &[u8],
    two: &Numbers,
    cursor: &mut [u64; 14],
    difference: &mut [u64; 15],
    totals: &mut [u64; 4],
) -> u64
    ensures answer { result ≡ compare_code (compare_step file1.now (record_in one.now) file2.now (record_in two.now) (walks_in cursor.old)) }
    ensures cursor { cursor.new ≡ compare_cursor (compare_step file1.now (record_in one.now) file2.now (record_in two.now) (walks_in cursor.old)) cursor.old }
    ensures numbers { difference.new ≡ compare_numbers (compare_step file1.now (record_in one.now) file2.now (record_in two.now) (walks_in cursor.old)) difference.old }
    ensures totals { totals.new ≡ compare_totals (compare_step file1.now (record_in one.now) file2.now (record_in two.now) (walks_in cursor.old)) totals.old }
{
    let at = differences::walks_in(cursor);
    let told = compare::step(
        at,
        file1,
        numbers::record_in(one),
        file2,
        numbers::record_in(two),
    );
    differences::tell_comparison(told, cursor, difference, totals)
}

// How many bytes a part of the file has: 0 where it is not inside.
pub fn hods_part(file: &[u8], place: u64, length: u64) -> u64
    ensures { result ≡ part_length file.now place «length» }
{
    content::part(file, place, length).len() as u64
}

// Writes the head of a book with these entries and content of that length: 0 and the head's length, or the refusal with nothing changed.
pub fn hods_write_head(
    entries: &[u8],
    density: u32,
    time: u32,
    language: u32,
    content_length: u64,
    out: &mut [u8],
    head_length: &mut [u64; 1],
) -> u64
    ensures answer { result ≡ write_code (written entries.now density content_length (length out.old)) }
    ensures output { out.new ≡ output_for (written entries.now density content_length (length out.old)) (head_bytes density time language content_length (layout_for density content_length entries.now)) out.old }
    ensures numbers { head_length.new ≡ write_numbers (written entries.now density content_length (length out.old)) head_length.old }
{
    let told = writer::write_head(entries, density, time, language, content_length, out);
    numbers::tell_written(told, head_length)
}
