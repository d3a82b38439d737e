// Writers of text: each writes at a place of a lent slice and returns the place after it.
ghost use Rattle.std.specs.Prelude.{◌+◌, ◌≤◌, length};
ghost use Rattle.listing.specs.Text.{Wrote, decimal};

use itoa::Buffer;
use writers::put_bytes;

// A number in decimal.
pub fn put_number(out: &mut [u8], at: usize, n: usize) -> usize
    requires { at + 20 ≤ length out.old }
    ensures wrote { Wrote out.old at (decimal n) out.new result }
    ensures upper_bound { result ≤ at + 20 }
{
    let mut buffer = Buffer::new();
    let digits = buffer.format(n);
    put_bytes(out, at, digits.as_bytes())
}
