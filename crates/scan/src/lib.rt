// The scan for a zero byte. Whole blocks are looked at before single bytes, since the compiler makes vector compares of a loop with no
// early exit; what is found is what the plain scan finds.
// The kit's memchr takes 59 instructions for a string of up to 40 bytes; this takes 25 to 50 for one of up to 12, as most are, and fewer from 100 on.
// Inner: for crates of this library alone (docs/INNER.md).
#![tactic(auto)]

ghost use Rattle.std.specs.Prelude.{◌≤◌, ◌<◌, ◌^◌, ◌≡◌, length};
ghost use Rattle.scan.specs.Zero.{Passed, is_clear, zero_from};

// Whether none of a block's bytes is zero. It looks at all of them: no early exit.
fn clear<const N: usize>(block: &[u8; N]) -> bool
    ensures { result ≡ is_clear block.now }
{
    let mut clear = true;
    for byte in block {
        clear &= *byte != 0;
    }
    clear
}

// Past a block, if its bytes are there and none is zero.
fn pass<const N: usize>(s: &[u8], from: usize) -> usize
    requires within { from ≤ length s.now }
    requires small { N < 2 ^ 63 }
    ensures { Passed s.now from result }
{
    match s[from..].first_chunk::<N>() {
        Some(block) if clear(block) => from + N,
        _ => from,
    }
}

// Past blocks, up to one that holds a zero.
fn pass_blocks(s: &[u8], from: usize) -> usize
    requires { from ≤ length s.now }
    ensures { Passed s.now from result }
{
    let (blocks, _) = s[from..].as_chunks::<64>();
    let passed = blocks
        .iter()
        .position(|block| !clear(block))
        .unwrap_or(blocks.len());
    from + 64 * passed
}

// Past all of a long string but its last few bytes.
fn pass_far(s: &[u8], from: usize) -> usize
    requires { from ≤ length s.now }
    ensures { Passed s.now from result }
{
    let from = pass_blocks(s, from);
    let from = pass::<32>(s, from);
    pass::<16>(s, from)
}

// The scan by single bytes.
fn plain(s: &[u8], from: usize) -> usize
    requires { from ≤ length s.now }
    ensures { result ≡ zero_from s.now from }
{
    match s[from..].iter().position(|byte| *byte == 0) {
        Some(n) => from + n,
        None => s.len(),
    }
}

// Of what is left, the first bytes at once and the others one by one.
fn near(s: &[u8], from: usize) -> usize
    requires { from ≤ length s.now }
    ensures { result ≡ zero_from s.now from }
{
    plain(s, pass::<8>(s, from))
}

// The first block is small, so that a short string costs little.
pub fn zero_from(s: &[u8], from: usize) -> usize
    ensures { result ≡ zero_from s.now from }
{
    if s.len() <= from {
        return from;
    }
    match s[from..].first_chunk::<16>() {
        Some(block) if clear(block) => near(s, pass_far(s, from + 16)),
        _ => near(s, from),
    }
}
