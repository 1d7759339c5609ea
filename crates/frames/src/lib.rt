// Frames on a writer: bytes in lower-case hexadecimal digits, a line each. What these functions promise is how many characters were handed to the writer;
// what a system makes of them it does not tell.
#![tactic(auto)]

ghost use Rattle.std.specs.Prelude.{◌≡◌, ◌+◌, ◌*◌, ◌<◌, ◌≤◌, length};
ghost use Rattle.std.proofs.lemmas.List.Edits.{sets};
ghost use Rattle.frames.specs.Frame.{refusal_bytes};
ghost use Rattle.frames.specs.Hex.{hex_digit, hex_of};

use refusals::Refusal;
use std::io::Write;

// The digit of a number below 16.
fn digit(n: u8) -> u8
    requires { n < 16 }
    ensures { result ≡ hex_digit n }
{
    if n < 10 { 48 + n } else { 87 + n }
}

// Writes two digits a byte from the front of `line` on.
fn put_hex(bytes: &[u8], line: &mut [u8])
    requires { 2 * length bytes.now ≤ length line.old }
    ensures { line.new ≡ sets line.old 0 (hex_of bytes.now) }
{
    for (i, b) in bytes.iter().enumerate() {
        line[2 * i] = digit(*b / 16);
        line[2 * i + 1] = digit(*b % 16);
    }
}

// How many of n bytes have room in a line at once.
fn at_once(n: usize) -> usize
    requires { 0 < n }
    ensures { (0 < result) × (result ≤ n) × (result ≤ 2048) }
{
    if n < 2048 { n } else { 2048 }
}

// Hands bytes to a writer; that they could not be written is not told.
fn hand<W: Write>(out: &mut W, bytes: &[u8]) {
    match out.write_all(bytes) {
        Ok(()) => {}
        Err(_) => {}
    }
}

// Writes the digits of some of the bytes, from a place on, and returns how many bytes those are.
fn write_some<W: Write>(out: &mut W, bytes: &[u8], from: usize) -> usize
    requires { from < length bytes.now }
    ensures { (0 < result) × (from + result ≤ length bytes.now) }
{
    let mut line = [0u8; 4096];
    let n = at_once(bytes.len() - from);
    put_hex(&bytes[from..from + n], &mut line);
    hand(out, &line[..2 * n]);
    n
}

// Writes the digits of all the bytes, and returns of how many bytes.
pub fn write_digits<W: Write>(out: &mut W, bytes: &[u8]) -> usize
    ensures { result ≡ length bytes.now }
{
    let mut from: usize = 0;
    while from < bytes.len() {
        from += write_some(out, bytes, from);
    }
    from
}

// Ends a frame: a newline, one character.
pub fn end_frame<W: Write>(out: &mut W) -> usize
    ensures { result ≡ 1 }
{
    hand(out, b"\n");
    1
}

// One frame: a line with the digits of all the bytes. It returns of how many bytes.
pub fn write_frame<W: Write>(out: &mut W, bytes: &[u8]) -> usize
    ensures { result ≡ length bytes.now }
{
    let n = write_digits(out, bytes);
    end_frame(out);
    n
}

// The bytes of a refusal.
pub fn refusal_bytes(r: Refusal) -> [u8; 6]
    ensures { result ≡ refusal_bytes r }
{
    let c = r.chunk_number();
    [
        0xEE,
        r.number(),
        (c / 0x100_0000) as u8,
        (c / 0x1_0000 % 256) as u8,
        (c / 256 % 256) as u8,
        (c % 256) as u8,
    ]
}

// The frame of a refusal, six bytes.
pub fn write_refusal<W: Write>(out: &mut W, r: Refusal) -> usize
    ensures { result ≡ 6 }
{
    let bytes = refusal_bytes(r);
    write_frame(out, &bytes)
}
