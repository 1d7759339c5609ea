// Two books side by side, in name order: a cursor that gives one difference a step, and totals at the end. The bytes, the records and the cursor may be any.
#![tactic(auto)]

ghost use Rattle.std.specs.Prelude.{◌≡◌, true, ◌≢◌, List, ℕ};
ghost use Rattle.refusals.specs.declared.Refusal.{Refusal};
ghost use Rattle.book.specs.Book.{record_fits};
ghost use Rattle.opening.specs.Opened.{opened};
ghost use Rattle.turn.specs.Turn.{load, Lighter};
ghost use Rattle.turn.specs.declared.Which.{Which};
ghost use Rattle.compare.specs.Compare.{compare_start, compare_step};
ghost use Rattle.compare.specs.Compared.{after_steps, ComparisonExact, BooksCompared};
ghost use Rattle.compare.specs.Passing.{SameTold, Passed};

use entries::Place;
use header::Record;
use turn::{BookRefusal, Cursor, Step, Totals, Turn};
use walk::Walk;

// The entries at two places, each of its chunk, where they are the same in name and numbers.
fn same_entries(
    c1: &[u8],
    at1: u64,
    content1: u64,
    c2: &[u8],
    at2: u64,
    content2: u64,
) -> Option<(Place, Place)>
    ensures { SameTold content1 c1.now at1 content2 c2.now at2 result }
{
    let x = entries::listing_at(c1, at1 as usize, content1)?;
    let y = entries::listing_at(c2, at2 as usize, content2)?;
    if !turn::same_at(x, y) {
        return None;
    }
    if names::is_match(
        fields::part(c1, x.start, x.len),
        fields::part(c2, y.start, y.len),
    ) {
        Some((x, y))
    } else {
        None
    }
}

// Goes over names that are the same as long as both walks stay inside their chunks. Nothing but the two entries is read for it, and this is what a
// comparison of two issues does most.
fn pass_inside(file1: &[u8], one: Record, file2: &[u8], two: Record, from: Cursor) -> Cursor
    requires one_value { record_fits file1.now one ≡ true }
    requires two_value { record_fits file2.now two ≡ true }
    ensures { Passed file1.now one file2.now two from result }
{
    let mut first = from.first;
    let mut second = from.second;
    let mut totals = from.totals;
    let c1 = book::chunk_bytes(file1, one, first.chunk);
    let c2 = book::chunk_bytes(file2, two, second.chunk);
    while 0 < first.left {
        if second.left < 1 {
            break;
        }
        let limits1 = book::limits(file1, one);
        let limits2 = book::limits(file2, two);
        let Some((x, y)) = same_entries(
            c1,
            first.at,
            limits1.content,
            c2,
            second.at,
            limits2.content,
        ) else {
            break;
        };
        first = first.after(x);
        second = second.after(y);
        totals = turn::one_same(totals);
    }
    Cursor {
        first,
        second,
        totals,
    }
}

// Goes over names that are the same: a step from here is a step from where it comes to.
fn pass_same(file1: &[u8], one: Record, file2: &[u8], two: Record, from: Cursor) -> Cursor
    ensures { Passed file1.now one file2.now two from result }
{
    if !book::record_fits(file1, one) {
        return from;
    }
    if !book::record_fits(file2, two) {
        return from;
    }
    pass_inside(file1, one, file2, two, from)
}

// Before the first entries of both books. From here the steps tell what differs, in any two files; where both open with these records, each name once.
pub fn start(one: Record, two: Record) -> Cursor
    ensures answer { result ≡ compare_start one two }
    ensures exact { (s₁ s₂ : List ℕ) → ComparisonExact s₁ one s₂ two result }
    ensures opened { (s₁ s₂ : List ℕ) → opened s₁ ≡ Ok one → opened s₂ ≡ Ok two → BooksCompared s₁ one s₂ two result }
{
    let first = Walk::start(one);
    let second = Walk::start(two);
    let totals = Totals {
        first: 0,
        second: 0,
        same: 0,
        changed: 0,
    };
    Cursor {
        first,
        second,
        totals,
    }
}

// The next difference, with the cursor behind it; the totals at the end; or a refusal, with the number of the book that met it.
pub fn step(
    from: Cursor,
    file1: &[u8],
    one: Record,
    file2: &[u8],
    two: Record,
) -> Result<Step, BookRefusal>
    ensures answer { result ≡ compare_step file1.now one file2.now two from }
    ensures ends { Lighter (load from) result }
    ensures opened { opened file1.now ≡ Ok one → opened file2.now ≡ Ok two → (n : ℕ) → from ≡ after_steps file1.now one file2.now two n (compare_start one two) → (k : Which) (x : Refusal) → result ≢ Err (k, x) }
{
    let mut at = from;
    loop {
        let here = pass_same(file1, one, file2, two, at);
        match turn::take_turn(file1, one, file2, two, here) {
            Turn::Tell(step) => return step,
            Turn::On(behind) => {
                at = behind;
            }
        }
    }
}
