// Measures the check of one chunk: reads a chunk from standard input, checks it as often as the first argument says (density 2, 4,096 chunks,
// any content), and writes how often it was good. tests/bench runs it.
#![tactic(auto)]

use chunk::Chunk;
use entries::Limits;
use std::env::Env;
use std::io;

// The number that decimal digits spell, as far as it stays below 1,000,000,000.
fn spelled(text: &[u8]) -> u32 {
    text.iter().fold(0, |n, digit| step(n, *digit))
}

fn step(n: u32, digit: u8) -> u32 {
    if n < 100000000 {
        if 48 <= digit {
            return n * 10 + (digit - 48) as u32;
        }
    }
    n
}

fn good(c: &[u8], limits: Limits) -> u32 {
    match chunk::check(c, limits) {
        Err(_) => 0,
        Ok(Chunk::Listing(_, _)) => 1,
        Ok(Chunk::Index) => 1,
    }
}

// Changes a byte of the unchecked word of a listing chunk.
fn touch(buf: &mut [u8], b: u8) {
    if 8 < buf.len() {
        buf[8] = b;
    }
}

// Between two checks the chunk changes, so that each is made anew.
fn count_good(buf: &mut [u8], times: u32) -> u32 {
    let limits = Limits {
        density: 2,
        count: 4096,
        content: 0x3FFF_FFFF_FFFF_FFFF,
    };
    let mut done: u32 = 0;
    for i in 0..times {
        done = done.wrapping_add(good(buf, limits));
        touch(buf, (i % 256) as u8);
    }
    done
}

fn main(rt: HostRuntime) -> io::Result<()> {
    let mut word = [0u8; 16];
    let n = rt.arg(1, &mut word).unwrap_or(0);
    let times = spelled(&word[..n]);
    let mut buf = [0u8; 4096];
    input::fill(&mut rt.stdin(), &mut buf)?;
    println!(rt; "{}", count_good(&mut buf, times))
}
