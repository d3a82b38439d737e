// Prints the listing of standard input: a digit for the mode, then the stream.
#![tactic(auto)]

ghost use Rattle.std.specs.Prelude.{◌≤◌, length};

use listing::Left;
use std::io::Read;

// The mode, the stream, and one byte more, which shows that there are too many.
const ROOM: usize = 65538;

// Each page takes a line at least, and a listing has at most two lines more than its input has bytes. A write that fails ends it.
fn print(rt: &impl Print, input: &[u8]) {
    let mut left = Left::All;
    for _ in 0..input.len() + 2 {
        let mut page = [0u8; 4096];
        let filled = listing::fill(input, left, &mut page);
        if rt.write_all(decode::part(&page, 0, filled.count)).is_err() {
            return;
        }
        left = filled.left;
        if left == Left::Nothing {
            return;
        }
    }
}

// Standard input up to its end, put at the start of `room`; of a longer one, as much as there is room for. It may arrive in pieces. A read that fails is
// the input's end. A loop over `read`, since the library's read_to_end wants a heap.
fn read(rt: &impl Input, room: &mut [u8]) -> usize
    ensures { result ≤ length room.new }
{
    let mut input = rt.reader();
    let mut count: usize = 0;
    while count < room.len() {
        let more = input.read(&mut room[count..]).unwrap_or(0);
        if more == 0 {
            break;
        }
        count += more;
    }
    count
}

fn main(rt: HostRuntime) {
    let mut input = [0u8; ROOM];
    let count = read(&rt, &mut input);
    print(&rt, decode::part(&input, 0, count));
}
