// The end of a connection, as in terminate.rs.
ghost use Rattle.protocol.specs.Encode.{Encodes};
ghost use Rattle.protocol.specs.Kinds as K;
ghost use Rattle.protocol.specs.Told.{encoded};
ghost use Rattle.encode.specs.Given as G;

use crate::bare;
use protocol::refusal::Refused;
use protocol::terminate::MESSAGE_TYPE_BYTE_TERMINATE;

pub fn terminate(out: &mut [u8]) -> Result<usize, Refused>
    ensures { Encodes K.frontend K.terminate G.terminate out.old (encoded result) out.new }
{
    bare(MESSAGE_TYPE_BYTE_TERMINATE, out)
}
