// The end of a connection, as in terminate.rs.
ghost use Rattle.std.specs.Prelude.{◌≡◌};
ghost use Rattle.protocol.specs.Decode.{decode_as};
ghost use Rattle.protocol.specs.Kinds as K;
ghost use Rattle.protocol.specs.Told.{decoded};

use envelope::fieldless;
use protocol::refusal::Unread;
use protocol::{Message, Rules, kinds};

pub fn terminate(rules: Rules, buf: &[u8]) -> Result<(Message, usize), Unread>
    ensures { decoded result ≡ decode_as rules K.typed K.terminate buf.now }
{
    fieldless(rules, buf, kinds::TERMINATE, Message::Terminate)
}
