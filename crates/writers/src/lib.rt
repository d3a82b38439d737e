// Writers of the fields of a frame: each writes at a place of the output and answers the place after it, or writes nothing and answers
// the place that it was given. The output and the place go by themselves and in no struct: each contract is of the whole output, and of a struct that holds it
// would have to say besides that it is still the one that was lent. A place that comes back is no Option either: the next writer goes on at it, as it is told.
// And what comes before any write: sizes that cannot wrap, the scan for zero bytes, and the answer.
// Inner: for crates of this library alone (docs/INNER.md).
#![tactic(auto)]

pub mod errors;
pub mod texts;
pub mod values;

ghost use Rattle.std.specs.Prelude.{ℕ, ◌+◌, ◌-◌, ◌*◌, ◌^◌, ◌≤◌, ◌<◌, min, ◌&&◌, true, List, [], ◌++◌, ◌∷◌, ◌≡◌, leb, length};
ghost use Rattle.std.proofs.Common.{lit≤};
ghost use Rattle.protocol.specs.Bytes.{be, bits_of, no_zero};
ghost use Rattle.protocol.specs.Encode.{items};
ghost use Rattle.protocol.specs.Fields.{bytes, most, unsigned_count};
ghost use Rattle.protocol.specs.Kinds.{formats, large_frame, oids, typed};
ghost use Rattle.protocol.specs.Told.{encoded};
ghost use Rattle.protocol.specs.WellFormed.{header};
ghost use Rattle.writers.specs.Writing.{Put, Wrote, joined, largest, verdict_of};

use protocol::kinds::{LARGE_FRAME, MOST_UNSIGNED};
use protocol::refusal::{Refusal, Refused};
use scan::zero_from;

// ---- the bits of a signed number, in two's complement: three, since the library's `cast_unsigned` is a method of each type

pub fn bits8(byte: i8) -> u8
    ensures { result ≡ bits_of 1 byte }
{
    byte.cast_unsigned()
}

pub fn bits16(half: i16) -> u16
    ensures { result ≡ bits_of 2 half }
{
    half.cast_unsigned()
}

pub fn bits32(word: i32) -> u32
    ensures { result ≡ bits_of 4 word }
{
    word.cast_unsigned()
}

// ---- sizes, the scan for zero bytes, and the answer

// a + b, or the largest usize where that is less.
pub fn plus(a: usize, b: usize) -> usize
    ensures { result ≡ min (a + b) largest }
{
    a.saturating_add(b)
}

pub fn plus4(a: usize, b: usize, c: usize, d: usize) -> usize
    ensures { result ≡ min (a + b + c + d) largest }
{
    plus(plus(a, b), plus(c, d))
}

pub fn no_zero(s: &[u8]) -> bool
    ensures { result ≡ no_zero s.now }
{
    s.len() <= zero_from(s, 0)
}

// The answer to a frame whose length is size, before anything of it is written; it has `uncounted` bytes that its length does not count.
fn judged(able: bool, limit: u32, size: usize, uncounted: u8, room: usize) -> Result<usize, Refused>
    ensures { encoded result ≡ verdict_of able limit size uncounted room }
{
    if !able {
        return Err(Refusal::NotRepresentable.at(0));
    }
    if (limit as usize) < size {
        return Err(Refusal::LengthAboveLimit.at(0));
    }
    let whole = size + uncounted as usize;
    if room < whole {
        return Err(Refusal::OutputTooShort.at(0));
    }
    Ok(whole)
}

// The answer to a frame with a type byte, and to one without.
pub fn verdict(able: bool, limit: u32, size: usize, room: usize) -> Result<usize, Refused>
    ensures { encoded result ≡ verdict_of able limit size 1 room }
{
    judged(able, limit, size, 1, room)
}

pub fn verdict_untyped(able: bool, limit: u32, size: usize, room: usize) -> Result<usize, Refused>
    ensures { encoded result ≡ verdict_of able limit size 0 room }
{
    judged(able, limit, size, 0, room)
}

// ---- stores, which ask for their room: the writers, below, look for it

// Bytes whose number the compiler knows: it makes a store or two of them, where the library's copy is called for others. They are a copy, so that it needs no
// test whether they and the output meet.
fn store_block<const N: usize>(out: &mut [u8], at: usize, block: [u8; N]) -> usize
    requires { at + N ≤ length out.old }
    ensures { Wrote out.old at block.entry N out.new result }
{
    let end = at + N;
    out[at..end].copy_from_slice(&block);
    end
}

// The first N bytes and the last N, which may meet.
fn store_ends<const N: usize>(out: &mut [u8], at: usize, s: &[u8]) -> usize
    requires room { at + length s.now ≤ length out.old }
    requires parts { (N ≤ length s.now) × (length s.now ≤ N + N) }
    requires small { N < 2 ^ 63 }
    ensures { Wrote out.old at s.now (length s.now) out.new result }
{
    let first = *s.first_chunk::<N>().unwrap();
    let last = *s.last_chunk::<N>().unwrap();
    store_block(out, at, first);
    store_block(out, at + (s.len() - N), last)
}

// Fewer than 16 bytes, as most strings and values have.
fn store_short(out: &mut [u8], at: usize, s: &[u8]) -> usize
    requires { (at + length s.now ≤ length out.old) × (length s.now < 16) }
    ensures { Wrote out.old at s.now (length s.now) out.new result }
{
    if 8 <= s.len() {
        return store_ends::<8>(out, at, s);
    }
    if 4 <= s.len() {
        return store_ends::<4>(out, at, s);
    }
    if 2 <= s.len() {
        return store_ends::<2>(out, at, s);
    }
    match s {
        [] => at,
        [only, ..] => store_block(out, at, [*only]),
    }
}

// Blocks of 64, and the last 64, which may meet the one before it.
fn store_blocks(out: &mut [u8], at: usize, s: &[u8]) -> usize
    requires { (at + length s.now ≤ length out.old) × (64 ≤ length s.now) }
    ensures { Wrote out.old at s.now (length s.now) out.new result }
{
    let last = *s.last_chunk::<64>().unwrap();
    let mut p = at;
    let mut rest = s;
    while 64 < rest.len() {
        let (block, after) = rest.split_first_chunk::<64>().unwrap();
        p = store_block(out, p, *block);
        rest = after;
    }
    store_block(out, at + (s.len() - 64), last)
}

// By blocks, and not by the library's copy: of a length that the compiler does not know that is a call of the C library, and the archives for C need none.
fn store_bytes(out: &mut [u8], at: usize, s: &[u8]) -> usize
    requires { at + length s.now ≤ length out.old }
    ensures { Wrote out.old at s.now (length s.now) out.new result }
{
    if s.len() < 16 {
        return store_short(out, at, s);
    }
    if 64 <= s.len() {
        return store_blocks(out, at, s);
    }
    if 32 <= s.len() {
        return store_ends::<32>(out, at, s);
    }
    store_ends::<16>(out, at, s)
}

fn store_half(out: &mut [u8], at: usize, half: u16) -> usize
    requires { at + 2 ≤ length out.old }
    ensures { Wrote out.old at (be 2 half) 2 out.new result }
{
    store_block(out, at, half.to_be_bytes())
}

fn store_word(out: &mut [u8], at: usize, word: u32) -> usize
    requires { at + 4 ≤ length out.old }
    ensures { Wrote out.old at (be 4 word) 4 out.new result }
{
    store_block(out, at, word.to_be_bytes())
}

// A number that stands in lists: of a fixed width, which is small, so that no list's size wraps.
trait Number: Copy {
    const WIDTH: usize;

    ghost WIDTH: { ℕ };

    ghost bytes: { Self → List ℕ };

    fn store(self, out: &mut [u8], at: usize) -> usize
        requires { at + WIDTH ≤ length out.old }
        ensures { Wrote out.old at (bytes self) WIDTH out.new result };

    ghost narrow: { WIDTH ≤ 8 };
}

// An oid.
impl Number for u32 {
    const WIDTH: usize = 4;

    ghost WIDTH = { 4 };

    ghost bytes = { be 4 };

    ghost narrow = { lit≤ tt };

    // By single bytes, of which the compiler makes a swap and a store: of `store_word` in a loop it makes vectors, which take longer.
    fn store(self, out: &mut [u8], at: usize) -> usize {
        let [a, b, c, d] = self.to_be_bytes();
        out[at] = a;
        out[at + 1] = b;
        out[at + 2] = c;
        out[at + 3] = d;
        at + 4
    }
}

// A format.
impl Number for i16 {
    const WIDTH: usize = 2;

    ghost WIDTH = { 2 };

    ghost bytes = { λ x. be 2 (bits_of 2 x) };

    ghost narrow = { lit≤ tt };

    fn store(self, out: &mut [u8], at: usize) -> usize {
        store_half(out, at, bits16(self))
    }
}

fn store_each<N: Number>(out: &mut [u8], at: usize, xs: &[N]) -> usize
    requires { at + N.WIDTH * length xs.now ≤ length out.old }
    ensures { Wrote out.old at (joined N.bytes xs.now) (N.WIDTH * length xs.now) out.new result }
{
    let mut p = at;
    for x in xs {
        p = x.store(out, p);
    }
    p
}

// ---- the writers, for any place: each writes all or nothing

// Whether n bytes have room from at on, where there are len.
fn room(len: usize, at: usize, n: usize) -> bool
    ensures { result ≡ leb (at + n) len }
{
    at <= len && n <= len - at
}

pub fn put_bytes(out: &mut [u8], at: usize, s: &[u8]) -> usize
    ensures { Put true out.old at s.now (length s.now) out.new result }
{
    if !room(out.len(), at, s.len()) {
        return at;
    }
    store_bytes(out, at, s)
}

fn put_block<const N: usize>(out: &mut [u8], at: usize, block: [u8; N]) -> usize
    ensures { Put true out.old at block.entry N out.new result }
{
    if !room(out.len(), at, N) {
        return at;
    }
    store_block(out, at, block)
}

pub fn put_byte(out: &mut [u8], at: usize, x: u8) -> usize
    ensures { Put true out.old at (x ∷ []) 1 out.new result }
{
    put_block(out, at, [x])
}

pub fn put_half(out: &mut [u8], at: usize, half: u16) -> usize
    ensures { Put true out.old at (be 2 half) 2 out.new result }
{
    put_block(out, at, half.to_be_bytes())
}

pub fn put_word(out: &mut [u8], at: usize, word: u32) -> usize
    ensures { Put true out.old at (be 4 word) 4 out.new result }
{
    put_block(out, at, word.to_be_bytes())
}

// A value: its length, as the bits x, and its bytes.
pub fn put_value(out: &mut [u8], at: usize, x: u32, s: &[u8]) -> usize
    ensures { Put true out.old at (be 4 x ++ s.now) (4 + length s.now) out.new result }
{
    if !room(out.len(), at, 4 + s.len()) {
        return at;
    }
    let at = store_word(out, at, x);
    store_bytes(out, at, s)
}

// A string, with its zero byte.
pub fn put_text(out: &mut [u8], at: usize, s: &[u8]) -> usize
    ensures { Put true out.old at (s.now ++ 0 ∷ []) (length s.now + 1) out.new result }
{
    if !room(out.len(), at, s.len() + 1) {
        return at;
    }
    let at = store_bytes(out, at, s);
    store_block(out, at, [0])
}

// Three pairs of numbers, of four bytes and of two: those of a row's field. They are parameters, since a struct of the six would be FieldDescription over
// again, with the bits in place of the signed numbers.
pub fn put_pairs(out: &mut [u8], at: usize, a: u32, b: u16, c: u32, d: u16, e: u32, f: u16) -> usize
    ensures { Put true out.old at (be 4 a ++ (be 2 b ++ (be 4 c ++ (be 2 d ++ (be 4 e ++ (be 2 f ++ [])))))) 18 out.new result }
{
    if !room(out.len(), at, 18) {
        return at;
    }
    let at = store_word(out, at, a);
    let at = store_half(out, at, b);
    let at = store_word(out, at, c);
    let at = store_half(out, at, d);
    let at = store_word(out, at, e);
    store_half(out, at, f)
}

// A list, with its count before it. One of more than MOST_UNSIGNED has no count of two bytes: nothing is written.
fn put_counted<N: Number>(out: &mut [u8], at: usize, xs: &[N]) -> usize
    ensures { Put (leb (length xs.now) (most unsigned_count)) out.old at (be 2 (length xs.now) ++ joined N.bytes xs.now) (2 + N.WIDTH * length xs.now) out.new result }
{
    if MOST_UNSIGNED < xs.len() {
        return at;
    }
    if !room(out.len(), at, 2 + N::WIDTH * xs.len()) {
        return at;
    }
    let at = store_half(out, at, xs.len() as u16);
    store_each(out, at, xs)
}

pub fn put_oids(out: &mut [u8], at: usize, xs: &[u32]) -> usize
    ensures { Put (leb (length xs.now) (most unsigned_count)) out.old at (bytes (oids unsigned_count) (items xs.now)) (2 + 4 * length xs.now) out.new result }
{
    put_counted(out, at, xs)
}

pub fn put_formats(out: &mut [u8], at: usize, xs: &[i16]) -> usize
    ensures { Put (leb (length xs.now) (most unsigned_count)) out.old at (bytes (formats unsigned_count) (items xs.now)) (2 + 2 * length xs.now) out.new result }
{
    put_counted(out, at, xs)
}

// The type byte and the length word of a frame of n bytes, at the output's start. No frame is below 5 bytes or above the largest limit.
pub fn put_head(out: &mut [u8], type_byte: u8, n: usize) -> usize
    ensures { Put (leb 5 n && leb n large_frame) out.old 0 (header typed type_byte (n - 5)) 5 out.new result }
{
    if n < 5 || LARGE_FRAME < n {
        return 0;
    }
    if !room(out.len(), 0, 5) {
        return 0;
    }
    let at = store_block(out, 0, [type_byte]);
    store_word(out, at, (n - 1) as u32)
}
