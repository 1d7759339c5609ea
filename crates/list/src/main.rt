// Lists a book. It is read from standard input, at most 60,000 bytes of it; for each entry, in the order of the listing, a line with the entry's own
// bytes in lower-case hexadecimal. A refusal is a line too: ee, its number in one byte, its chunk in four, highest first.
#![tactic(auto)]

use header::Record;
use refusals::Rule;
use std::io;
use std::io::Write;
use walk::Walk;

// A frame for each entry, its own bytes as stored.
fn write_entries<W: Write>(out: &mut W, file: &[u8], book: Record) {
    let mut at = Walk::start(book);
    loop {
        match at.peek(file, book) {
            Ok(Some((e, w))) => {
                let own = report::own_of(file, book, w.chunk, e);
                frames::write_frame(out, content::part(file, own.place, own.length));
                at = w.after(e);
            }
            Ok(None) => return,
            Err(r) => {
                frames::write_refusal(out, r);
                return;
            }
        }
    }
}

fn write_listing<W: Write>(out: &mut W, file: &[u8]) {
    match opening::open(file) {
        Ok(book) => write_entries(out, file, book),
        Err(r) => {
            frames::write_refusal(out, r);
        }
    }
}

fn main(rt: HostRuntime) -> io::Result<()> {
    let mut out = rt.stdout();
    let mut buf = [0u8; 60001];
    let got = input::fill(&mut rt.stdin(), &mut buf)?;
    if 60000 < got {
        frames::write_refusal(&mut out, refusals::refuse(Rule::LongInput));
        return Ok(());
    }
    write_listing(&mut out, &buf[..got]);
    Ok(())
}
