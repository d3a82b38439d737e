// Values and whole rows, for a host.
ghost use Rattle.std.specs.Prelude.{◌≡◌};
ghost use Rattle.protocol.specs.Reading.{read_value};
ghost use Rattle.host_parts.specs.Reads.{LaysRow, value_out};

use host_layout::shapes;

// The value at a place of a frame, as reader::value_at answers it, with the next place.
#[unsafe(no_mangle)]
pub extern "C" fn tusweram_value(frame: &[u8], at: usize, out: &mut [usize; 16])
    ensures { out.new ≡ value_out (read_value frame.now at) }
{
    *out = match reader::value_at(frame, at) {
        Ok((Some(part), next)) => shapes::one_span(4, next.at, part),
        Ok((None, next)) => shapes::none(3, next.at),
        Err(refused) => shapes::refusal(refused),
    };
}

// A whole DataRow, as reader::row::data_row answers it.
#[unsafe(no_mangle)]
pub extern "C" fn tusweram_data_row(
    buf: &[u8],
    starts: &mut [usize],
    lengths: &mut [i32],
    out: &mut [usize; 16],
)
    ensures { LaysRow buf.now starts.old lengths.old starts.new lengths.new out.new }
{
    *out = match reader::row::data_row(buf, starts, lengths) {
        Ok((list, n)) => shapes::one_list(19, n, list),
        Err(unread) => shapes::unread(unread),
    };
}
