// Values and whole rows, for a host.
ghost use Rattle.std.specs.Prelude.{◌≡◌};
ghost use Rattle.protocol.specs.Reading.{read_value};
ghost use Rattle.host_parts.specs.Reads.{LaysRow, value_out};

// The value at a place of a frame, as reader::value_at answers it, with the next place.
#[unsafe(no_mangle)]
pub extern "C" fn tusweram_value(frame: &[u8], at: usize, out: &mut [usize; 16])
    ensures { out.new ≡ value_out (read_value frame.now at) }
{
    host_parts::reading::tusweram_value(frame, at, out)
}

// A whole DataRow, as reader::row::data_row answers it.
#[unsafe(no_mangle)]
pub extern "C" fn tusweram_data_row(
    buf: &[u8],
    starts: &mut [usize],
    lengths: &mut [i32],
    out: &mut [usize; 16],
)
    ensures { LaysRow buf.now starts.old lengths.old starts.new lengths.new out.new }
{
    host_parts::reading::tusweram_data_row(buf, starts, lengths, out)
}
