// The copy messages, as in copy.rs.
ghost use Rattle.protocol.specs.Encode.{Encodes};
ghost use Rattle.protocol.specs.Kinds as K;
ghost use Rattle.protocol.specs.Told.{encoded};
ghost use Rattle.encode.specs.Given as G;

use crate::{bare, one_text};
use protocol::copy::{
    MESSAGE_TYPE_BYTE_COPY_BOTH_RESPONSE, MESSAGE_TYPE_BYTE_COPY_DATA, MESSAGE_TYPE_BYTE_COPY_DONE,
    MESSAGE_TYPE_BYTE_COPY_FAIL, MESSAGE_TYPE_BYTE_COPY_IN_RESPONSE,
    MESSAGE_TYPE_BYTE_COPY_OUT_RESPONSE,
};
use protocol::kinds::{LARGE, MOST_SIGNED, SMALL};
use protocol::refusal::Refused;
use writers::{bits8, plus, put_byte, put_bytes, put_formats, put_head, verdict};

// From either side: a kind of both modes.
pub fn copy_data(data: &[u8], out: &mut [u8]) -> Result<usize, Refused>
    ensures from_frontend { Encodes K.frontend K.copy_data (G.copy_data «data».now) out.old (encoded result) out.new }
    ensures from_backend { Encodes K.backend K.copy_data (G.copy_data «data».now) out.old (encoded result) out.new }
{
    let size = plus(data.len(), 4);
    let n = verdict(true, LARGE, size, out.len())?;
    let at = put_head(out, MESSAGE_TYPE_BYTE_COPY_DATA, n);
    put_bytes(out, at, data);
    Ok(n)
}

// From either side too.
pub fn copy_done(out: &mut [u8]) -> Result<usize, Refused>
    ensures from_frontend { Encodes K.frontend K.copy_done G.copy_done out.old (encoded result) out.new }
    ensures from_backend { Encodes K.backend K.copy_done G.copy_done out.old (encoded result) out.new }
{
    bare(MESSAGE_TYPE_BYTE_COPY_DONE, out)
}

pub fn copy_fail(message: &[u8], out: &mut [u8]) -> Result<usize, Refused>
    ensures { Encodes K.frontend K.copy_fail (G.copy_fail message.now) out.old (encoded result) out.new }
{
    one_text(MESSAGE_TYPE_BYTE_COPY_FAIL, message, out)
}

// What the three copy responses have in common.
fn copy_response(
    type_byte: u8,
    format: i8,
    column_formats: &[i16],
    out: &mut [u8],
) -> Result<usize, Refused>
    ensures { Encodes K.backend (G.formatted type_byte) (G.formats_of type_byte format column_formats.now) out.old (encoded result) out.new }
{
    let able = column_formats.len() <= MOST_SIGNED;
    let size = plus(column_formats.len() * 2, 7);
    let n = verdict(able, SMALL, size, out.len())?;
    let at = put_head(out, type_byte, n);
    let at = put_byte(out, at, bits8(format));
    put_formats(out, at, column_formats);
    Ok(n)
}

pub fn copy_in_response(
    format: i8,
    column_formats: &[i16],
    out: &mut [u8],
) -> Result<usize, Refused>
    ensures { Encodes K.backend K.copy_in_response (G.copy_in_response format column_formats.now) out.old (encoded result) out.new }
{
    copy_response(
        MESSAGE_TYPE_BYTE_COPY_IN_RESPONSE,
        format,
        column_formats,
        out,
    )
}

pub fn copy_out_response(
    format: i8,
    column_formats: &[i16],
    out: &mut [u8],
) -> Result<usize, Refused>
    ensures { Encodes K.backend K.copy_out_response (G.copy_out_response format column_formats.now) out.old (encoded result) out.new }
{
    copy_response(
        MESSAGE_TYPE_BYTE_COPY_OUT_RESPONSE,
        format,
        column_formats,
        out,
    )
}

pub fn copy_both_response(
    format: i8,
    column_formats: &[i16],
    out: &mut [u8],
) -> Result<usize, Refused>
    ensures { Encodes K.backend K.copy_both_response (G.copy_both_response format column_formats.now) out.old (encoded result) out.new }
{
    copy_response(
        MESSAGE_TYPE_BYTE_COPY_BOTH_RESPONSE,
        format,
        column_formats,
        out,
    )
}
