// The layout of a new book: specs/ says which entries each chunk holds and what bytes the head has. Here are the chunk numbers in it that
// point to other chunks.
#![tactic(auto)]

ghost use Rattle.std.specs.Prelude.{◌≡◌};
ghost use Rattle.layout.specs.Layout.{new_previous, new_next, new_root};

// The listing chunk before chunk c.
pub fn previous(c: u32) -> u32
    ensures { result ≡ new_previous c }
{
    if c == 0 {
        return refusals::no_chunk();
    }
    c - 1
}

// The listing chunk behind chunk c, where there are m of them.
pub fn following(m: u32, c: u32) -> u32
    ensures { result ≡ new_next m c }
{
    if m <= c {
        return refusals::no_chunk();
    }
    if c + 1 < m {
        return c + 1;
    }
    refusals::no_chunk()
}

// The root of an index of that depth, where there are `count` chunks.
pub fn root_chunk(depth: u32, count: u32) -> u32
    ensures { result ≡ new_root depth count }
{
    if depth == 1 {
        return refusals::no_chunk();
    }
    if count == 0 {
        return 0;
    }
    count - 1
}
