// The messages that describe and carry rows, as in data.rs.
ghost use Rattle.protocol.specs.Encode.{Encodes};
ghost use Rattle.protocol.specs.Kinds as K;
ghost use Rattle.protocol.specs.Told.{encoded};
ghost use Rattle.encode.specs.Given as G;

use crate::{bare, put_values};
use protocol::data::{
    FieldDescription, MESSAGE_TYPE_BYTE_DATA_ROW, MESSAGE_TYPE_BYTE_NO_DATA,
    MESSAGE_TYPE_BYTE_PARAMETER_DESCRITION,
};
use protocol::kinds::{LARGE, MOST_SIGNED, MOST_UNSIGNED};
use protocol::refusal::Refused;
use row_fields::{Pass, begin, each, writing_pass};
use writers::values::values_given;
use writers::{plus, put_head, put_oids, verdict};

// A field names its column by start and length in the run. One pass measures, a second one writes, where the first finds no fault.
pub fn row_description(
    fields: &[FieldDescription],
    run: &[u8],
    out: &mut [u8],
) -> Result<usize, Refused>
    ensures { Encodes K.backend K.row_description (G.row_description fields.now run.now) out.old (encoded result) out.new }
{
    let measuring = Pass {
        at: 0,
        ok: true,
        writing: false,
    };
    let measured = each(fields, run, out, measuring);
    let n = begin(measured, fields.len(), out)?;
    each(fields, run, out, writing_pass::<Refused>(Ok(n)));
    Ok(n)
}

pub fn parameter_description(types: &[u32], out: &mut [u8]) -> Result<usize, Refused>
    ensures { Encodes K.backend K.parameter_description (G.parameter_description types.now) out.old (encoded result) out.new }
{
    let able = types.len() <= MOST_UNSIGNED;
    let size = types.len() * 4 + 6;
    let n = verdict(able, LARGE, size, out.len())?;
    let at = put_head(out, MESSAGE_TYPE_BYTE_PARAMETER_DESCRITION, n);
    put_oids(out, at, types);
    Ok(n)
}

pub fn data_row(lengths: &[i32], joined: &[u8], out: &mut [u8]) -> Result<usize, Refused>
    ensures { Encodes K.backend K.data_row (G.data_row lengths.now joined.now) out.old (encoded result) out.new }
{
    let able = values_given(lengths, joined) & (lengths.len() <= MOST_SIGNED);
    let size = plus(joined.len(), lengths.len() * 4 + 6);
    let n = verdict(able, LARGE, size, out.len())?;
    let at = put_head(out, MESSAGE_TYPE_BYTE_DATA_ROW, n);
    put_values(out, at, lengths, joined);
    Ok(n)
}

pub fn no_data(out: &mut [u8]) -> Result<usize, Refused>
    ensures { Encodes K.backend K.no_data G.no_data out.old (encoded result) out.new }
{
    bare(MESSAGE_TYPE_BYTE_NO_DATA, out)
}
