// Lays two books side by side. They are files that the first two arguments name, at most 30,000 bytes of each; for each difference, in the order of names, a
// line with its kind in one byte and the own bytes of its entries, the first book's before the second's, in lower-case hexadecimal. A book that is refused,
// the first before the second, is a line alone: ee, its number in one byte, its chunk in four, highest first.
#![tactic(auto)]

ghost use Rattle.std.specs.Prelude.{◌≡◌, ◌≤◌, length, take};
ghost use Rattle.std.specs.Io.{ReadsAtMost};
ghost use Rattle.diff.specs.Files.{opened_file};
ghost use Rattle.diff.specs.Steps.{next_after};

use header::Record;
use refusals::{Refusal, Rule};
use std::env::Env;
use std::io::Write;
use std::rt::Files;
use std::{fs, io, str};
use turn::{BookRefusal, Cursor, Shown, Step};

// Reads a file into `buf`, as much of it as there is room for.
fn read_file<R: Files>(rt: &R, path: &str, buf: &mut [u8]) -> io::Result<usize>
    ensures { ReadsAtMost result buf.new }
{
    let mut file = fs::open(rt, path)?;
    input::fill(&mut file, buf)
}

// Reads the file that an argument names into `buf`, as much of it as there is room for; no bytes where it cannot be read, or where its name is not UTF-8.
fn read_named<R: Env + Files>(rt: &R, i: usize, buf: &mut [u8]) -> usize
    ensures bound { result ≤ length buf.new }
    ensures count { result ≡ length (take result buf.new) }
{
    let mut name = [0u8; 4096];
    let Ok(n) = rt.arg(i, &mut name) else {
        return 0;
    };
    let Ok(path) = str::from_utf8(&name[..n]) else {
        return 0;
    };
    match read_file(rt, path, buf) {
        Ok(got) => got,
        Err(_) => 0,
    }
}

// Opens a file that was read.
fn open_file(file: &[u8]) -> Result<Record, Refusal>
    ensures { result ≡ opened_file file.now }
{
    if 30000 < file.len() {
        return Err(refusals::refuse(Rule::LongInput));
    }
    opening::open(file)
}

// The digits of an entry's own bytes, as stored.
fn write_own<W: Write>(out: &mut W, file: &[u8], x: Shown) {
    let own = x.own;
    frames::write_digits(out, content::part(file, own.place, own.length));
}

fn write_kind<W: Write>(out: &mut W, kind: u8) {
    frames::write_digits(out, &[kind]);
}

// The frame of a step, that of a difference, none at the end; and the cursor where the comparison goes on, if it does.
fn write_step<W: Write>(
    out: &mut W,
    file1: &[u8],
    file2: &[u8],
    step: Result<Step, BookRefusal>,
) -> Option<Cursor>
    ensures { result ≡ next_after step }
{
    match step {
        Ok(Step::First(x, behind)) => {
            write_kind(out, 1);
            write_own(out, file1, x);
            frames::end_frame(out);
            Some(behind)
        }
        Ok(Step::Second(y, behind)) => {
            write_kind(out, 2);
            write_own(out, file2, y);
            frames::end_frame(out);
            Some(behind)
        }
        Ok(Step::Changed(x, y, behind)) => {
            write_kind(out, 3);
            write_own(out, file1, x);
            write_own(out, file2, y);
            frames::end_frame(out);
            Some(behind)
        }
        Ok(Step::End(_)) => None,
        Err((_, r)) => {
            frames::write_refusal(out, r);
            None
        }
    }
}

// A frame for each difference.
fn write_differences<W: Write>(out: &mut W, file1: &[u8], one: Record, file2: &[u8], two: Record) {
    let mut at = compare::start(one, two);
    loop {
        let step = compare::step(at, file1, one, file2, two);
        match write_step(out, file1, file2, step) {
            Some(behind) => {
                at = behind;
            }
            None => return,
        }
    }
}

// The second book, beside the first, which opened.
fn beside<W: Write>(out: &mut W, file1: &[u8], one: Record, file2: &[u8]) {
    match open_file(file2) {
        Ok(two) => write_differences(out, file1, one, file2, two),
        Err(r) => {
            frames::write_refusal(out, r);
        }
    }
}

fn write_comparison<W: Write>(out: &mut W, file1: &[u8], file2: &[u8]) {
    match open_file(file1) {
        Ok(one) => beside(out, file1, one, file2),
        Err(r) => {
            frames::write_refusal(out, r);
        }
    }
}

fn main(rt: HostRuntime) {
    let mut first = [0u8; 30001];
    let mut second = [0u8; 30001];
    let m = read_named(&rt, 1, &mut first);
    let n = read_named(&rt, 2, &mut second);
    write_comparison(&mut rt.stdout(), &first[..m], &second[..n]);
}
