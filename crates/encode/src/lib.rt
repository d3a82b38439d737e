// An encoder for each kind, in the module of its Rust file. Everything is checked before the first byte is written.
// The tests of the arguments are joined by `&`, as in `row_fields` and `row_builder`: `&&` is no plainer here, and was tried: its proofs split by which tests are skipped.
// Output and place go beside each other, as in `writers`.
#![tactic(auto)]

pub mod cancel;
pub mod copy;
pub mod data;
pub mod extendedquery;
pub mod response;
pub mod simplequery;
pub mod startup;
pub mod terminate;

ghost use Rattle.std.specs.Prelude.{◌+◌, ◌*◌, ◌≤◌, true, ◌≡◌, length};
ghost use Rattle.std.proofs.Math.Option.{some};
ghost use Rattle.protocol.specs.Encode.{Encodes, values_given};
ghost use Rattle.protocol.specs.Fields.{most, unsigned_count};
ghost use Rattle.protocol.specs.Kinds.{frontend, values};
ghost use Rattle.protocol.specs.Told.{encoded};
ghost use Rattle.writers.specs.Given.{is_some};
ghost use Rattle.encode.specs.Given.{fieldless, text_of, texted};
ghost use Rattle.encode.specs.Writing.{WroteGiven};

use protocol::kinds::SMALL;
use protocol::refusal::Refused;
use writers::values::size_of;
use writers::{bits32, no_zero, plus, put_half, put_head, put_text, put_value, verdict};

// A frame with no body.
fn bare(type_byte: u8, out: &mut [u8]) -> Result<usize, Refused>
    ensures { Encodes frontend (fieldless type_byte) (some tt) out.old (encoded result) out.new }
{
    let n = verdict(true, SMALL, 4, out.len())?;
    put_head(out, type_byte, n);
    Ok(n)
}

// A frame whose body is one string.
fn one_text(type_byte: u8, s: &[u8], out: &mut [u8]) -> Result<usize, Refused>
    ensures { Encodes frontend (texted type_byte) (text_of type_byte s.now) out.old (encoded result) out.new }
{
    let able = no_zero(s);
    let size = plus(s.len(), 5);
    let n = verdict(able, SMALL, size, out.len())?;
    let at = put_head(out, type_byte, n);
    put_text(out, at, s);
    Ok(n)
}

// ---- values, which come as lengths (-1 for NULL) and their joined bytes: so a host in C lends them, and an argument of an encoder is one of its exports. Errors and
// start-up arguments come so too (`put_errors`, `put_parameters`); the three walks write other things for each, and one of them with closures is no plainer.

// Their count; then the length of each, and its bytes.
fn put_values(out: &mut [u8], at: usize, lengths: &[i32], joined: &[u8]) -> usize
    requires { (at + 4 * length lengths.now + length joined.now + 2 ≤ length out.old) × (length lengths.now ≤ most unsigned_count) × (is_some (values_given lengths.now joined.now) ≡ true) }
    ensures { WroteGiven (values unsigned_count) (values_given lengths.now joined.now) out.old at (2 + (4 * length lengths.now + length joined.now)) out.new result }
{
    let mut p = put_half(out, at, lengths.len() as u16);
    let mut rest = joined;
    for len in lengths {
        let (value, others) = rest.split_at(size_of(*len));
        p = put_value(out, p, bits32(*len), value);
        rest = others;
    }
    p
}
