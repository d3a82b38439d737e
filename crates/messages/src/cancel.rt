// The request to cancel, modes 2 and 5, as in cancel.rs.
ghost use Rattle.std.specs.Prelude.{◌≡◌};
ghost use Rattle.protocol.specs.Decode.{decode_as};
ghost use Rattle.protocol.specs.Kinds as K;
ghost use Rattle.protocol.specs.Told.{decoded};

use codec::{Cursor, signed32};
use envelope::{UNTYPED_BODY, cut, finished, untyped};
use protocol::cancel::CancelRequest;
use protocol::refusal::Unread;
use protocol::{Message, Rules, kinds};

// After the length and the code: the process and its key.
pub fn cancel_request(rules: Rules, buf: &[u8]) -> Result<(Message, usize), Unread>
    ensures { decoded result ≡ decode_as rules K.untyped K.cancel_request buf.now }
{
    let frame = untyped(buf, kinds::CANCEL_REQUEST)?;
    let c = Cursor { at: UNTYPED_BODY };
    let Some((pid, c)) = c.word(frame) else {
        return Err(cut(c));
    };
    let Some((key, c)) = c.word(frame) else {
        return Err(cut(c));
    };
    let request = CancelRequest {
        pid: signed32(pid),
        secret_key: signed32(key),
    };
    finished(frame, c, Message::CancelRequest(request))
}
