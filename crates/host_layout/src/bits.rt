// A signed number's bits, as they are laid out.
ghost use Rattle.std.specs.Prelude.{◌≡◌};
ghost use Rattle.protocol.specs.Bytes.{bits_of};

use writers::bits32;

pub fn bits(x: i32) -> usize
    ensures { result ≡ bits_of 4 x }
{
    bits32(x) as usize
}
