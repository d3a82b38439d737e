// The listing's library function, run: each argument is a comment, or an input in hexadecimal digits whose listing is printed in
// pages of one line; and inputs of full size, of whose listings the number of bytes, their sum and the last line are printed.
#![tactic(auto)]

ghost use Rattle.std.specs.Prelude.{◌≤◌};

use listing::Left;
use std::{env, io};
use test_cases::{Output, case};

// The longest input of all, and the longest that an argument gives.
const ROOM: usize = 65538;

const ARGUMENT: usize = 512;

// A page has room for one line.
const PAGE: usize = 64;

// A letter that is no digit counts 0.
fn digit(letter: u8) -> u8
    ensures { result ≤ 15 }
{
    case::digit(letter).unwrap_or(0)
}

// The bytes that the digits of `text` are, as many as there is room for.
fn read_hex<'a>(text: &[u8], room: &'a mut [u8; ARGUMENT]) -> &'a [u8] {
    let (pairs, _) = text.as_chunks::<2>();
    let count = pairs.len().min(ARGUMENT);
    let bytes = &mut room[..count];
    for (byte, [high, low]) in bytes.iter_mut().zip(pairs) {
        *byte = digit(*high) * 16 + digit(*low);
    }
    bytes
}

// A page of a listing: its first `count` bytes.
#[derive(Clone, Copy)]
struct Page {
    room: [u8; PAGE],
    count: usize,
}

impl Page {
    fn empty() -> Page {
        Page {
            room: [0; PAGE],
            count: 0,
        }
    }

    fn bytes(&self) -> &[u8] {
        decode::part(&self.room, 0, self.count)
    }
}

// Each page of an input's listing; and whether the listing ends. None has more pages than its input has bytes, and two.
fn each_page<F: FnMut(Page)>(input: &[u8], mut use_page: F) -> bool
    requires { F.IsAlwaysCallable use_page }
{
    let mut left = Left::All;
    for _ in 0..input.len() + 2 {
        let mut page = Page::empty();
        let filled = listing::fill(input, left, &mut page.room);
        page.count = filled.count;
        use_page(page);
        left = filled.left;
        if left == Left::Nothing {
            return true;
        }
    }
    false
}

fn print(to: &mut Output, input: &[u8]) {
    if !each_page(input, |page| to.write_all(page.bytes())) {
        writeln!(to, "NOT ENDED");
    }
}

// The sum of the bytes and what came before them. It wraps.
fn added(total: u64, bytes: &[u8]) -> u64 {
    bytes
        .iter()
        .fold(total, |sum, byte| sum.wrapping_add(*byte as u64))
}

fn print_size(to: &mut Output, input: &[u8]) {
    let mut size: usize = 0;
    let mut total: u64 = 0;
    let mut last = Page::empty();
    let ended = each_page(input, |page| {
        size = size.wrapping_add(page.count);
        total = added(total, page.bytes());
        last = page;
    });
    if ended {
        write!(to, "{size} bytes, sum {total}, last line ");
        to.write_all(last.bytes());
    } else {
        writeln!(to, "NOT ENDED");
    }
}

// A digit for the mode, and then one byte over and over: `count` bytes in all.
fn print_same(to: &mut Output, digit: u8, byte: u8, count: usize) {
    let mut input = [byte; ROOM];
    input[0] = digit;
    print_size(to, decode::part(&input, 0, count));
}

// A CopyData of 65,536 bytes: its length is 65,535.
fn print_large(to: &mut Output) {
    let mut input = [0u8; ROOM];
    input[..6].copy_from_slice(b"0d\0\0\xFF\xFF");
    print(to, decode::part(&input, 0, 65537));
}

fn print_argument(to: &mut Output, argument: &[u8]) {
    if argument.starts_with(b"#") {
        to.write_all(argument);
        writeln!(to);
        return;
    }
    let mut room = [0u8; ARGUMENT];
    print(to, read_hex(argument, &mut room));
}

fn main(rt: HostRuntime) -> io::Result<()> {
    let arguments = env::args(&rt)?;
    let mut to = Output::new(rt)?;
    // All but the program's name.
    for argument in arguments.skip(1) {
        print_argument(&mut to, argument.as_bytes());
    }
    writeln!(to, "# 65,536 answers of one byte");
    print_same(&mut to, b'3', b'S', 65537);
    print_same(&mut to, b'4', b'N', 65537);
    writeln!(to, "# one byte more");
    print_same(&mut to, b'3', b'S', 65538);
    print_same(&mut to, b'5', b'S', 65538);
    writeln!(to, "# one byte more, and no mode: the mode is tested first");
    print_same(&mut to, b'6', b'S', 65538);
    writeln!(to, "# a frame of 65,536 bytes");
    print_large(&mut to);
    to.finish()
}
