// The request to cancel, as in cancel.rs.
ghost use Rattle.protocol.specs.Encode.{Encodes};
ghost use Rattle.protocol.specs.Kinds as K;
ghost use Rattle.protocol.specs.Told.{encoded};
ghost use Rattle.encode.specs.Given as G;

use protocol::cancel::CancelRequest;
use protocol::refusal::{Refusal, Refused};
use writers::{bits32, put_word};

// Sixteen bytes, always within the limit: only the room can be lacking. A kind of both modes of first packets.
pub fn cancel_request(pid: i32, secret_key: i32, out: &mut [u8]) -> Result<usize, Refused>
    ensures as_cancel { Encodes K.cancel K.cancel_request (G.cancel_request pid secret_key) out.old (encoded result) out.new }
    ensures as_first_packet { Encodes K.first_packet K.cancel_request (G.cancel_request pid secret_key) out.old (encoded result) out.new }
{
    if out.len() < 16 {
        return Err(Refusal::OutputTooShort.at(0));
    }
    let at = put_word(out, 0, 16);
    let at = put_word(out, at, CancelRequest::CANCEL_REQUEST_CODE);
    let at = put_word(out, at, bits32(pid));
    put_word(out, at, bits32(secret_key));
    Ok(16)
}
