// The simple query, as in simplequery.rs.
ghost use Rattle.protocol.specs.Encode.{Encodes};
ghost use Rattle.protocol.specs.Kinds as K;
ghost use Rattle.protocol.specs.Told.{encoded};
ghost use Rattle.encode.specs.Given as G;

use crate::one_text;
use protocol::refusal::Refused;
use protocol::simplequery::MESSAGE_TYPE_BYTE_QUERY;

pub fn query(query: &[u8], out: &mut [u8]) -> Result<usize, Refused>
    ensures { Encodes K.frontend K.query (G.query query.now) out.old (encoded result) out.new }
{
    one_text(MESSAGE_TYPE_BYTE_QUERY, query, out)
}
