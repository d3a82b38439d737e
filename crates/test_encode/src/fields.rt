// A RowDescription of fields that are given by value.
ghost use Rattle.protocol.specs.Encode.{Encodes};
ghost use Rattle.protocol.specs.Kinds as K;
ghost use Rattle.protocol.specs.Told.{encoded};
ghost use Rattle.encode.specs.Given as G;

use encode::data::row_description;
use protocol::data::FieldDescription;
use protocol::refusal::Refused;

pub fn description_of<const N: usize>(
    fields: [FieldDescription; N],
    run: &[u8],
    out: &mut [u8],
) -> Result<usize, Refused>
    ensures { Encodes K.backend K.row_description (G.row_description fields.entry run.now) out.old (encoded result) out.new }
{
    row_description(&fields, run, out)
}
