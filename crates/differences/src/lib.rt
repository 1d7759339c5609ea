// Comparisons as numbers for C: a cursor is fourteen numbers, a difference fifteen, and the answer of a step a code, with numbers in lent places.
#![tactic(auto)]

ghost use Rattle.std.specs.Prelude.{◌≡◌};
ghost use Rattle.differences.specs.Differences.{walks_in, walks_numbers, nothing, fifteen_of, compare_code, compare_cursor, compare_numbers, compare_totals};

use report::{Own, Report};
use turn::{BookRefusal, Cursor, Shown, Step, Totals};
use walk::Walk;

// The comparison cursor of fourteen numbers.
pub fn walks_in(n: &[u64; 14]) -> Cursor
    ensures { result ≡ walks_in n.now }
{
    let first = Walk {
        chunk: n[0],
        at: n[1],
        left: n[2],
        next: n[3],
        more: n[4],
    };
    let second = Walk {
        chunk: n[5],
        at: n[6],
        left: n[7],
        next: n[8],
        more: n[9],
    };
    let totals = Totals {
        first: n[10],
        second: n[11],
        same: n[12],
        changed: n[13],
    };
    Cursor {
        first,
        second,
        totals,
    }
}

// The fourteen numbers of a comparison cursor.
pub fn walks_numbers(at: Cursor) -> [u64; 14]
    ensures { result ≡ walks_numbers at }
{
    let a = at.first;
    let b = at.second;
    let t = at.totals;
    [
        a.chunk, a.at, a.left, a.next, a.more, b.chunk, b.at, b.left, b.next, b.more, t.first,
        t.second, t.same, t.changed,
    ]
}

// No entry.
fn no_entry() -> Shown
    ensures { result ≡ nothing }
{
    let report = Report {
        place: 0,
        length: 0,
        section: 0,
        offset: 0,
        size: 0,
    };
    let own = Own {
        place: 0,
        length: 0,
    };
    Shown { report, own }
}

// The fifteen numbers of a difference.
fn fifteen(kind: u64, x: Shown, y: Shown) -> [u64; 15]
    ensures { result ≡ fifteen_of kind x y }
{
    let a = x.report;
    let b = y.report;
    let p = x.own;
    let q = y.own;
    [
        kind, a.place, a.length, a.section, a.offset, a.size, p.place, p.length, b.place, b.length,
        b.section, b.offset, b.size, q.place, q.length,
    ]
}

// What a step of a comparison answers: a difference with the cursor moved on, the totals at the end, or the refusal beside its book.
pub fn tell_comparison(
    step: Result<Step, BookRefusal>,
    cursor: &mut [u64; 14],
    difference: &mut [u64; 15],
    totals: &mut [u64; 4],
) -> u64
    ensures code { result ≡ compare_code step }
    ensures cursor { cursor.new ≡ compare_cursor step cursor.old }
    ensures numbers { difference.new ≡ compare_numbers step difference.old }
    ensures totals { totals.new ≡ compare_totals step totals.old }
{
    match step {
        Ok(Step::First(x, next)) => {
            *cursor = walks_numbers(next);
            *difference = fifteen(1, x, no_entry());
            0
        }
        Ok(Step::Second(y, next)) => {
            *cursor = walks_numbers(next);
            *difference = fifteen(2, no_entry(), y);
            0
        }
        Ok(Step::Changed(x, y, next)) => {
            *cursor = walks_numbers(next);
            *difference = fifteen(3, x, y);
            0
        }
        Ok(Step::End(t)) => {
            *totals = [t.first, t.second, t.same, t.changed];
            255
        }
        Err((book, r)) => numbers::code(r) + 0x100_0000_0000 * (book.number() as u64),
    }
}
