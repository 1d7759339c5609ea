// Reports on each chunk of standard input, 4,096 bytes each, held to density 2, 3 chunks and a content of 5 bytes. A line a chunk:
// the refusal's number, or what the chunk is, and then the places of some entries by index, of the last one, and of those that some names find; for an
// index chunk the children to which they lead.
#![tactic(auto)]

use chunk::Chunk;
use entries::{Kind, Limits, Place};
use std::io;
use std::io::Write;

fn number<W: Write>(out: &mut W, n: u64) -> io::Result<()> {
    write!(out, " {n}")
}

fn place<W: Write>(out: &mut W, h: Option<Place>) -> io::Result<()> {
    match h {
        Some(e) => number(out, e.at as u64),
        None => write!(out, " -"),
    }
}

fn child<W: Write>(out: &mut W, d: Option<u64>) -> io::Result<()> {
    match d {
        Some(n) => number(out, n),
        None => write!(out, " -"),
    }
}

fn sought<W: Write>(
    out: &mut W,
    c: &[u8],
    limits: Limits,
    kind: Kind,
    name: &[u8],
) -> io::Result<()> {
    match kind {
        Kind::Listing => place(out, seek::find(c, limits, name).answer),
        Kind::Index => child(out, seek::choose(c, limits, name).answer),
    }
}

fn searches<W: Write>(out: &mut W, c: &[u8], limits: Limits, kind: Kind) -> io::Result<()> {
    write!(out, " :")?;
    place(out, quickref::first_entry(c, limits, kind))?;
    place(out, quickref::nth_entry(c, limits, kind, 4))?;
    place(out, quickref::nth_entry(c, limits, kind, 5))?;
    place(out, quickref::nth_entry(c, limits, kind, 9))?;
    place(out, quickref::nth_entry(c, limits, kind, 10))?;
    place(out, quickref::nth_entry(c, limits, kind, 65535))?;
    place(out, quickref::last_entry(c, limits, kind))?;
    write!(out, " :")?;
    sought(out, c, limits, kind, b"/")?;
    sought(out, c, limits, kind, b"/000")?;
    sought(out, c, limits, kind, b"/005XX")?;
    sought(out, c, limits, kind, b"/005")?;
    sought(out, c, limits, kind, b"/9")?;
    sought(out, c, limits, kind, b"/Z")?;
    sought(out, c, limits, kind, b"/a.HTM")
}

fn report<W: Write>(out: &mut W, c: &[u8], limits: Limits) -> io::Result<()> {
    match chunk::check(c, limits) {
        Err(rule) => write!(out, "{}", rule.number())?,
        Ok(Chunk::Listing(previous, next)) => {
            write!(out, "L")?;
            number(out, previous as u64)?;
            number(out, next as u64)?;
            number(out, chunk_fields::entry_count(c) as u64)?;
            searches(out, c, limits, Kind::Listing)?;
        }
        Ok(Chunk::Index) => {
            write!(out, "I")?;
            number(out, chunk_fields::entry_count(c) as u64)?;
            searches(out, c, limits, Kind::Index)?;
        }
    }
    writeln!(out)
}

fn main(rt: HostRuntime) -> io::Result<()> {
    let limits = Limits {
        density: 2,
        count: 3,
        content: 5,
    };
    let mut out = rt.stdout();
    let mut buf = [0u8; 4096];
    for _ in 0..4096u32 {
        let got = input::fill(&mut rt.stdin(), &mut buf)?;
        if got == 0 {
            return Ok(());
        }
        report(&mut out, &buf[..got], limits)?;
    }
    Ok(())
}
