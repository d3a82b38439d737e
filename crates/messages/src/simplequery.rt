// The simple query, as in simplequery.rs.
ghost use Rattle.std.specs.Prelude.{◌≡◌};
ghost use Rattle.protocol.specs.Decode.{decode_as};
ghost use Rattle.protocol.specs.Kinds as K;
ghost use Rattle.protocol.specs.Told.{decoded};

use codec::Cursor;
use envelope::{TYPED_BODY, cut, finished, typed};
use protocol::refusal::Unread;
use protocol::simplequery::Query;
use protocol::{Message, Rules, kinds};

pub fn query(rules: Rules, buf: &[u8]) -> Result<(Message, usize), Unread>
    ensures { decoded result ≡ decode_as rules K.typed K.query buf.now }
{
    let frame = typed(buf, kinds::QUERY)?;
    let c = Cursor { at: TYPED_BODY };
    let Some((query, c)) = c.text(rules, frame) else {
        return Err(cut(c));
    };
    finished(frame, c, Message::Query(Query { query }))
}
