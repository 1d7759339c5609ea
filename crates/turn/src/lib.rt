// One turn of a comparison: what one name gives, of two books that are read side by side. The bytes, the records and the cursor may be any.
#![tactic(auto)]

ghost use Rattle.std.specs.Prelude.{◌≡◌};
ghost use Rattle.turn.specs.Turn.{which_number, one_more, one_first, one_second, one_same, one_changed, refused_by, shown_at, same_at, turn_only_first, turn_only_second, in_both, paired, behind_first, beside_first, turned};

use entries::Place;
use header::Record;
use refusals::{Refusal, Rule};
use report::{Own, Report};
use std::cmp::Ordering;
use walk::Walk;

// How many names were only in the first book, only in the second, in both with the same numbers, in both with others; modulo 2^64.
#[derive(Clone, Copy)]
pub struct Totals {
    pub first: u64,
    pub second: u64,
    pub same: u64,
    pub changed: u64,
}

// A walk along each book, and the totals of what was passed.
#[derive(Clone, Copy)]
pub struct Cursor {
    pub first: Walk,
    pub second: Walk,
    pub totals: Totals,
}

// An entry as it is told: its five numbers, and its own bytes.
#[derive(Clone, Copy)]
pub struct Shown {
    pub report: Report,
    pub own: Own,
}

// What a step gives: a difference with the cursor behind it, or the end with the totals.
#[derive(Clone, Copy)]
pub enum Step {
    First(Shown, Cursor),
    Second(Shown, Cursor),
    Changed(Shown, Shown, Cursor),
    End(Totals),
}

// One of the two books. `Other` is any further number, in an answer that a caller makes; no step gives it.
#[derive(Clone, Copy)]
pub enum Which {
    First,
    Second,
    Other(u8),
}

// A refusal, beside the book that met it.
pub type BookRefusal = (Which, Refusal);

// What one name gives: a step's answer, or nothing to tell, and the cursor behind it.
#[derive(Clone, Copy)]
pub enum Turn {
    Tell(Result<Step, BookRefusal>),
    On(Cursor),
}

impl Which {
    // The number of the book.
    pub fn number(self) -> u8
        ensures { result ≡ which_number self }
    {
        match self {
            Which::First => 1,
            Which::Second => 2,
            Which::Other(number) => number,
        }
    }
}

// One more, modulo 2^64.
fn one_more(n: u64) -> u64
    ensures { result ≡ one_more n }
{
    std::num::wrapping_add_u64(n, 1)
}

// The totals with one more name that is only in the first book.
fn one_first(t: Totals) -> Totals
    ensures { result ≡ one_first t }
{
    Totals {
        first: one_more(t.first),
        ..t
    }
}

// With one more that is only in the second.
fn one_second(t: Totals) -> Totals
    ensures { result ≡ one_second t }
{
    Totals {
        second: one_more(t.second),
        ..t
    }
}

// With one more that is in both with the same numbers.
pub fn one_same(t: Totals) -> Totals
    ensures { result ≡ one_same t }
{
    Totals {
        same: one_more(t.same),
        ..t
    }
}

// With one more that is in both with others.
fn one_changed(t: Totals) -> Totals
    ensures { result ≡ one_changed t }
{
    Totals {
        changed: one_more(t.changed),
        ..t
    }
}

// An entry of a book as it is told.
fn show(file: &[u8], book: Record, w: Walk, e: Place) -> Shown
    ensures { result ≡ shown_at file.now book w e }
{
    Shown {
        report: report::report_of(file, book, w.chunk, e),
        own: report::own_of(file, book, w.chunk, e),
    }
}

// Whether section, offset and length are the same.
pub fn same_at(x: Place, y: Place) -> bool
    ensures { result ≡ same_at x y }
{
    if x.section != y.section {
        return false;
    }
    if x.offset != y.offset {
        return false;
    }
    x.size == y.size
}

// The refusal of a book that cannot be read further.
fn refused_by(book: Which) -> Result<Step, BookRefusal>
    ensures { result ≡ refused_by book }
{
    Err((book, refusals::refuse(Rule::BadRecord)))
}

// A name that is only in the first book. This and `only_second` stay two: which walk goes on, which total grows and which step is told all differ.
fn only_first(file: &[u8], book: Record, x: Place, v: Walk, w: Walk, t: Totals) -> Turn
    ensures { result ≡ turn_only_first file.now book x v w t }
{
    let item = show(file, book, v, x);
    let first = v.after(x);
    let totals = one_first(t);
    Turn::Tell(Ok(Step::First(
        item,
        Cursor {
            first,
            second: w,
            totals,
        },
    )))
}

// A name that is only in the second book.
fn only_second(file: &[u8], book: Record, w: Walk, y: Place, v: Walk, t: Totals) -> Turn
    ensures { result ≡ turn_only_second file.now book w y v t }
{
    let item = show(file, book, v, y);
    let second = v.after(y);
    let totals = one_second(t);
    Turn::Tell(Ok(Step::Second(
        item,
        Cursor {
            first: w,
            second,
            totals,
        },
    )))
}

// A name that is in both books.
fn in_both(
    file1: &[u8],
    one: Record,
    x: Place,
    v1: Walk,
    file2: &[u8],
    two: Record,
    y: Place,
    v2: Walk,
    t: Totals,
) -> Turn
    ensures { result ≡ in_both file1.now one file2.now two x v1 y v2 t }
{
    let first = v1.after(x);
    let second = v2.after(y);
    if same_at(x, y) {
        let totals = one_same(t);
        return Turn::On(Cursor {
            first,
            second,
            totals,
        });
    }
    let a = show(file1, one, v1, x);
    let b = show(file2, two, v2, y);
    let totals = one_changed(t);
    Turn::Tell(Ok(Step::Changed(
        a,
        b,
        Cursor {
            first,
            second,
            totals,
        },
    )))
}

// Both books have an entry: x in the first, y in the second.
fn paired(
    file1: &[u8],
    one: Record,
    x: Place,
    v1: Walk,
    file2: &[u8],
    two: Record,
    y: Place,
    v2: Walk,
    t: Totals,
) -> Turn
    ensures { result ≡ paired file1.now one file2.now two x v1 y v2 t }
{
    match names::compare(v1.name(file1, one, x), v2.name(file2, two, y)) {
        Ordering::Less => only_first(file1, one, x, v1, v2, t),
        Ordering::Equal => in_both(file1, one, x, v1, file2, two, y, v2, t),
        Ordering::Greater => only_second(file2, two, v1, y, v2, t),
    }
}

// The first book is at its end.
fn behind_first(file2: &[u8], two: Record, w1: Walk, w2: Walk, t: Totals) -> Turn
    ensures { result ≡ behind_first file2.now two w1 w2 t }
{
    match w2.peek(file2, two) {
        Err(_) => Turn::Tell(refused_by(Which::Second)),
        Ok(None) => Turn::Tell(Ok(Step::End(t))),
        Ok(Some((y, v2))) => only_second(file2, two, w1, y, v2, t),
    }
}

// The first book has an entry, x.
fn beside_first(
    file1: &[u8],
    one: Record,
    x: Place,
    v1: Walk,
    file2: &[u8],
    two: Record,
    w2: Walk,
    t: Totals,
) -> Turn
    ensures { result ≡ beside_first file1.now one file2.now two x v1 w2 t }
{
    match w2.peek(file2, two) {
        Err(_) => Turn::Tell(refused_by(Which::Second)),
        Ok(None) => only_first(file1, one, x, v1, w2, t),
        Ok(Some((y, v2))) => paired(file1, one, x, v1, file2, two, y, v2, t),
    }
}

// One name: the first book is asked first.
pub fn take_turn(file1: &[u8], one: Record, file2: &[u8], two: Record, at: Cursor) -> Turn
    ensures { result ≡ turned file1.now one file2.now two at }
{
    let first = at.first;
    let second = at.second;
    let totals = at.totals;
    match first.peek(file1, one) {
        Err(_) => Turn::Tell(refused_by(Which::First)),
        Ok(None) => behind_first(file2, two, first, second, totals),
        Ok(Some((x, v1))) => beside_first(file1, one, x, v1, file2, two, second, totals),
    }
}
