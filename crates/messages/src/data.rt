// The messages that describe and carry rows, as in data.rs.
ghost use Rattle.std.specs.Prelude.{◌≡◌};
ghost use Rattle.protocol.specs.Decode.{decode_as};
ghost use Rattle.protocol.specs.Kinds as K;
ghost use Rattle.protocol.specs.Told.{decoded};

use codec::Cursor;
use envelope::{TYPED_BODY, fieldless, finished, typed};
use items::data::fields;
use protocol::data::{DataRow, ParameterDescription, RowDescription};
use protocol::refusal::Unread;
use protocol::{Count, Message, Rules, kinds};

pub fn row_description(rules: Rules, buf: &[u8]) -> Result<(Message, usize), Unread>
    ensures { decoded result ≡ decode_as rules K.typed K.row_description buf.now }
{
    let frame = typed(buf, kinds::ROW_DESCRIPTION)?;
    let (fields, c) = fields(rules, frame, Cursor { at: TYPED_BODY })?;
    finished(frame, c, Message::RowDescription(RowDescription { fields }))
}

pub fn parameter_description(rules: Rules, buf: &[u8]) -> Result<(Message, usize), Unread>
    ensures { decoded result ≡ decode_as rules K.typed K.parameter_description buf.now }
{
    let frame = typed(buf, kinds::PARAMETER_DESCRIPTION)?;
    let c = Cursor { at: TYPED_BODY };
    let (types, c) = c.oids(rules, Count::Unsigned, frame)?;
    finished(
        frame,
        c,
        Message::ParameterDescription(ParameterDescription { types }),
    )
}

pub fn data_row(rules: Rules, buf: &[u8]) -> Result<(Message, usize), Unread>
    ensures { decoded result ≡ decode_as rules K.typed K.data_row buf.now }
{
    let frame = typed(buf, kinds::DATA_ROW)?;
    let c = Cursor { at: TYPED_BODY };
    let (data, c) = c.values(rules, Count::Signed, frame)?;
    finished(frame, c, Message::DataRow(DataRow { data }))
}

pub fn no_data(rules: Rules, buf: &[u8]) -> Result<(Message, usize), Unread>
    ensures { decoded result ≡ decode_as rules K.typed K.no_data buf.now }
{
    fieldless(rules, buf, kinds::NO_DATA, Message::NoData)
}
