// An error's fields, which come as codes, lengths of strings and the strings' joined bytes, since C lends them so.
ghost use Rattle.std.specs.Prelude.{◌≡◌};
ghost use Rattle.protocol.specs.Encode.{error_fields_given};
ghost use Rattle.writers.specs.Given.{is_some};

use crate::texts::texts_given;

// There are as many codes as lengths, and the lengths add up to the bytes.
pub fn errors_given(codes: &[u8], lengths: &[u32], joined: &[u8]) -> bool
    ensures { result ≡ is_some (error_fields_given codes.now lengths.now joined.now) }
{
    codes.len() == lengths.len() && texts_given(lengths, joined)
}
