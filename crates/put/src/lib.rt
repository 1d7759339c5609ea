// Numbers written into a lent slice, lowest byte first; nothing is written where they have no room.
#![tactic(auto)]

ghost use Rattle.std.specs.Prelude.{◌≡◌, ◌+◌, ◌≤◌, length};
ghost use Rattle.std.proofs.lemmas.List.Edits.{sets};
ghost use Rattle.fields.specs.Le.{bytes};
ghost use Rattle.fields.specs.Part.{inside};
ghost use Rattle.put.specs.Put.{put};

// Writes the lowest k bytes of v at `at`, lowest first.
fn write_number(out: &mut [u8], at: usize, v: u64, k: usize)
    requires { at + k ≤ length out.old }
    ensures { out.new ≡ sets out.old at (bytes k v) }
{
    let mut x = v;
    for i in 0..k {
        out[at + i] = (x % 256) as u8;
        x = x / 256;
    }
}

// Writes the lowest k bytes of v at `at` where they have room, and returns whether they have.
fn put_number(out: &mut [u8], at: usize, v: u64, k: usize) -> bool
    ensures answer { result ≡ inside out.old at k }
    ensures written { out.new ≡ put out.old at (bytes k v) }
{
    if out.len() < at {
        return false;
    }
    if out.len() - at < k {
        return false;
    }
    write_number(out, at, v, k);
    true
}

// One function for each width, since each takes a type of its own; what they share is `put_number`.
pub fn put16(out: &mut [u8], at: usize, v: u16) -> bool
    ensures answer { result ≡ inside out.old at 2 }
    ensures written { out.new ≡ put out.old at (bytes 2 v) }
{
    put_number(out, at, v as u64, 2)
}

pub fn put32(out: &mut [u8], at: usize, v: u32) -> bool
    ensures answer { result ≡ inside out.old at 4 }
    ensures written { out.new ≡ put out.old at (bytes 4 v) }
{
    put_number(out, at, v as u64, 4)
}

pub fn put64(out: &mut [u8], at: usize, v: u64) -> bool
    ensures answer { result ≡ inside out.old at 8 }
    ensures written { out.new ≡ put out.old at (bytes 8 v) }
{
    put_number(out, at, v, 8)
}
