// What the test programs share: what they write on standard output, and the lines and cases that they read.
// It is no part of the library. That its functions are safe and end is proved; what they write is compared when the programs are run.
#![tactic(auto)]

pub mod case;
pub mod shown;

ghost use Rattle.std.specs.Prelude.{◌≡◌, ◌≤◌, IfOk, length};

use case::Lines;
use std::fmt::Display;
use std::io;
use std::io::{BufWriter, Read, Stdout, Write};

// Standard output, through a buffer. Once a write fails nothing more is written, and `finish` gives the error: who writes need not look at each one,
// and no program can end without `finish`, as an `Output` cannot be let go.
pub struct Output {
    writer: BufWriter<Stdout>,
    result: io::Result<()>,
}

impl Output {
    pub fn new(rt: HostRuntime) -> io::Result<Output> {
        let writer = BufWriter::new(rt.alloc(), rt.stdout())?;
        Ok(Output {
            writer,
            result: Ok(()),
        })
    }

    // Bytes that need not be text.
    pub fn write_all(&mut self, bytes: &[u8]) {
        if self.result.is_ok() {
            self.result = self.writer.write_all(bytes);
        }
    }

    // What `write!` and `writeln!` call.
    pub fn write_fmt<D: Display + Drop>(&mut self, text: D) {
        if self.result.is_ok() {
            self.result = self.writer.write_fmt(text);
        }
    }

    // Writes what is left in the buffer; or gives the first error.
    pub fn finish(self) -> io::Result<()> {
        let Output { mut writer, result } = self;
        result?;
        writer.flush()
    }
}

// Standard input up to its end, put at the start of `room`; of a longer one, as much as there is room for. It may arrive in pieces.
// A loop over `read`, since the library's read_to_end wants a heap.
pub fn read_input(rt: HostRuntime, room: &mut [u8]) -> io::Result<&[u8]>
    ensures { IfOk result (λ part. length part.now ≤ length room.old) }
{
    let mut input = rt.stdin();
    let mut count: usize = 0;
    while count < room.len() {
        let more = input.read(&mut room[count..])?;
        if more == 0 {
            break;
        }
        count += more;
    }
    Ok(&room[..count])
}

// Each line of the input is written back, and behind what is no comment its answer. A case that has none is malformed.
pub fn answer_lines<F: FnMut(&mut Output, &[u8]) -> Option<()>>(
    to: &mut Output,
    input: &[u8],
    mut answer: F,
)
    requires { F.IsAlwaysCallable answer }
{
    for line in Lines::of(input) {
        to.write_all(line);
        if !line.starts_with(b"#") {
            write!(to, " = ");
            if answer(to, line).is_none() {
                write!(to, "malformed case");
            }
        }
        writeln!(to);
    }
}

// Stands in every byte of an output or a room before a call, so that a byte that is written where none should be is seen.
pub const SPARE: u8 = 238;

// One item over and over. Its length alone is said: the check would compute a long array's value.
pub fn filled<T: Copy, const N: usize>(item: T) -> [T; N]
    ensures { length result ≡ N }
{
    [item; N]
}
