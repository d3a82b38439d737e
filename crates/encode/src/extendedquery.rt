// The extended query messages, as in extendedquery.rs.
ghost use Rattle.protocol.specs.Encode.{Encodes};
ghost use Rattle.protocol.specs.Kinds as K;
ghost use Rattle.protocol.specs.Told.{encoded};
ghost use Rattle.encode.specs.Given as G;

use crate::{bare, put_values};
use protocol::extendedquery::{
    MESSAGE_TYPE_BYTE_BIND, MESSAGE_TYPE_BYTE_BIND_COMPLETE, MESSAGE_TYPE_BYTE_CLOSE,
    MESSAGE_TYPE_BYTE_CLOSE_COMPLETE, MESSAGE_TYPE_BYTE_DESCRIBE, MESSAGE_TYPE_BYTE_EXECUTE,
    MESSAGE_TYPE_BYTE_FLUSH, MESSAGE_TYPE_BYTE_PARSE, MESSAGE_TYPE_BYTE_PARSE_COMPLETE,
    MESSAGE_TYPE_BYTE_PORTAL_SUSPENDED, MESSAGE_TYPE_BYTE_SYNC, is_target,
};
use protocol::kinds::{LARGE, MOST_UNSIGNED, SMALL};
use protocol::refusal::Refused;
use writers::values::values_given;
use writers::{
    bits32, no_zero, plus, plus4, put_byte, put_formats, put_head, put_oids, put_text, put_word,
    verdict,
};

pub fn parse(name: &[u8], query: &[u8], type_oids: &[u32], out: &mut [u8]) -> Result<usize, Refused>
    ensures { Encodes K.frontend K.parse (G.parse name.now query.now type_oids.now) out.old (encoded result) out.new }
{
    let able = no_zero(name) & no_zero(query) & (type_oids.len() <= MOST_UNSIGNED);
    let size = plus4(name.len(), query.len(), type_oids.len() * 4, 8);
    let n = verdict(able, LARGE, size, out.len())?;
    let at = put_head(out, MESSAGE_TYPE_BYTE_PARSE, n);
    let at = put_text(out, at, name);
    let at = put_text(out, at, query);
    put_oids(out, at, type_oids);
    Ok(n)
}

pub fn bind(
    portal_name: &[u8],
    statement_name: &[u8],
    parameter_format_codes: &[i16],
    lengths: &[i32],
    joined: &[u8],
    result_column_format_codes: &[i16],
    out: &mut [u8],
) -> Result<usize, Refused>
    ensures { Encodes K.frontend K.bind (G.bind portal_name.now statement_name.now parameter_format_codes.now lengths.now joined.now result_column_format_codes.now) out.old (encoded result) out.new }
{
    let few = (parameter_format_codes.len() <= MOST_UNSIGNED)
        & (lengths.len() <= MOST_UNSIGNED)
        & (result_column_format_codes.len() <= MOST_UNSIGNED);
    let able = values_given(lengths, joined) & no_zero(portal_name) & no_zero(statement_name) & few;
    let lists = plus4(
        parameter_format_codes.len() * 2,
        result_column_format_codes.len() * 2,
        lengths.len() * 4,
        joined.len(),
    );
    let size = plus4(portal_name.len(), statement_name.len(), lists, 12);
    let n = verdict(able, LARGE, size, out.len())?;
    let at = put_head(out, MESSAGE_TYPE_BYTE_BIND, n);
    let at = put_text(out, at, portal_name);
    let at = put_text(out, at, statement_name);
    let at = put_formats(out, at, parameter_format_codes);
    let at = put_values(out, at, lengths, joined);
    put_formats(out, at, result_column_format_codes);
    Ok(n)
}

// What Close and Describe have in common: a target and a name.
fn aim(type_byte: u8, target_type: u8, name: &[u8], out: &mut [u8]) -> Result<usize, Refused>
    ensures { Encodes K.frontend (G.aimed type_byte) (G.aim_of type_byte target_type name.now) out.old (encoded result) out.new }
{
    let able = is_target(target_type) & no_zero(name);
    let size = plus(name.len(), 6);
    let n = verdict(able, SMALL, size, out.len())?;
    let at = put_head(out, type_byte, n);
    let at = put_byte(out, at, target_type);
    put_text(out, at, name);
    Ok(n)
}

pub fn close(target_type: u8, name: &[u8], out: &mut [u8]) -> Result<usize, Refused>
    ensures { Encodes K.frontend K.close (G.close target_type name.now) out.old (encoded result) out.new }
{
    aim(MESSAGE_TYPE_BYTE_CLOSE, target_type, name, out)
}

pub fn describe(target_type: u8, name: &[u8], out: &mut [u8]) -> Result<usize, Refused>
    ensures { Encodes K.frontend K.describe (G.describe target_type name.now) out.old (encoded result) out.new }
{
    aim(MESSAGE_TYPE_BYTE_DESCRIBE, target_type, name, out)
}

pub fn execute(name: &[u8], max_rows: i32, out: &mut [u8]) -> Result<usize, Refused>
    ensures { Encodes K.frontend K.execute (G.execute name.now max_rows) out.old (encoded result) out.new }
{
    let able = no_zero(name);
    let size = plus(name.len(), 9);
    let n = verdict(able, SMALL, size, out.len())?;
    let at = put_head(out, MESSAGE_TYPE_BYTE_EXECUTE, n);
    let at = put_text(out, at, name);
    put_word(out, at, bits32(max_rows));
    Ok(n)
}

pub fn flush(out: &mut [u8]) -> Result<usize, Refused>
    ensures { Encodes K.frontend K.flush G.flush out.old (encoded result) out.new }
{
    bare(MESSAGE_TYPE_BYTE_FLUSH, out)
}

pub fn sync(out: &mut [u8]) -> Result<usize, Refused>
    ensures { Encodes K.frontend K.sync G.sync out.old (encoded result) out.new }
{
    bare(MESSAGE_TYPE_BYTE_SYNC, out)
}

pub fn parse_complete(out: &mut [u8]) -> Result<usize, Refused>
    ensures { Encodes K.backend K.parse_complete G.parse_complete out.old (encoded result) out.new }
{
    bare(MESSAGE_TYPE_BYTE_PARSE_COMPLETE, out)
}

pub fn bind_complete(out: &mut [u8]) -> Result<usize, Refused>
    ensures { Encodes K.backend K.bind_complete G.bind_complete out.old (encoded result) out.new }
{
    bare(MESSAGE_TYPE_BYTE_BIND_COMPLETE, out)
}

pub fn close_complete(out: &mut [u8]) -> Result<usize, Refused>
    ensures { Encodes K.backend K.close_complete G.close_complete out.old (encoded result) out.new }
{
    bare(MESSAGE_TYPE_BYTE_CLOSE_COMPLETE, out)
}

pub fn portal_suspended(out: &mut [u8]) -> Result<usize, Refused>
    ensures { Encodes K.backend K.portal_suspended G.portal_suspended out.old (encoded result) out.new }
{
    bare(MESSAGE_TYPE_BYTE_PORTAL_SUSPENDED, out)
}
