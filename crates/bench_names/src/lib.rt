// Comparing of names, to be timed from outside: that of the library, and beside it the plain one that it took the place of. Both meet the same equation.
#![tactic(auto)]

ghost use Rattle.std.specs.Prelude.{◌≡◌};
ghost use Rattle.names.specs.Names.{compared, order_code};

// The library's comparing.
#[unsafe(no_mangle)]
pub extern "C" fn bench_compare(a: &[u8], b: &[u8]) -> u64
    ensures { result ≡ order_code (compared a.now b.now) }
{
    names::order_of(a, b)
}

// The plain comparing: byte by byte, both bytes folded. Its loop stays by hand: it is what the figures of docs/BENCHMARKS.md compare with.
#[unsafe(no_mangle)]
pub extern "C" fn bench_compare_plain(a: &[u8], b: &[u8]) -> u64
    ensures { result ≡ order_code (compared a.now b.now) }
{
    let mut i: usize = 0;
    while i < a.len() {
        if b.len() <= i {
            return 2;
        }
        let x = names::fold(a[i]);
        let y = names::fold(b[i]);
        if x < y {
            return 0;
        }
        if y < x {
            return 2;
        }
        i += 1;
    }
    if i < b.len() { 0 } else { 1 }
}
