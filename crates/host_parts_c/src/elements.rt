// Elements, for a host. The form with a stand-in is the host's own: it has the stand-in, and where the answer is NULL it takes it.
ghost use Rattle.std.specs.Prelude.{◌≡◌};
ghost use Rattle.protocol.specs.Elements.{element_of};
ghost use Rattle.protocol.specs.Kinds as K;
ghost use Rattle.protocol.specs.Reading.{and_then, got, read_item};
ghost use Rattle.protocol.specs.Rules.{rules_of};
ghost use Rattle.host_layout.specs.LaidOut.{element_out};
ghost use Rattle.host_parts.specs.Reads.{error_field_out, field_out, pair_out};

// An element of a list of the buffer's first message, as element::element answers it.
#[unsafe(no_mangle)]
pub extern "C" fn tusweram_element(
    mode: u8,
    buf: &[u8],
    list: usize,
    number: usize,
    out: &mut [usize; 16],
)
    ensures { out.new ≡ element_out (element_of (rules_of mode) buf.now list number) }
{
    host_parts::elements::tusweram_element(mode, buf, list, number, out)
}

// The field of a row at a place of a frame, with the next place: all of a row's fields in one pass.
#[unsafe(no_mangle)]
pub extern "C" fn tusweram_field(frame: &[u8], at: usize, out: &mut [usize; 16])
    ensures { out.new ≡ field_out (and_then (read_item (rules_of 1) K.row_field frame.now at) (λ s q. got (K.row_field_of s) q)) }
{
    host_parts::elements::tusweram_field(frame, at, out)
}

// The field of an error at a place of a frame, with the next place.
#[unsafe(no_mangle)]
pub extern "C" fn tusweram_error_field(frame: &[u8], at: usize, out: &mut [usize; 16])
    ensures { out.new ≡ error_field_out (read_item (rules_of 1) K.error_field frame.now at) }
{
    host_parts::elements::tusweram_error_field(frame, at, out)
}

// The start-up argument at a place of a frame, with the next place.
#[unsafe(no_mangle)]
pub extern "C" fn tusweram_pair(frame: &[u8], at: usize, out: &mut [usize; 16])
    ensures { out.new ≡ pair_out (read_item (rules_of 5) K.pair frame.now at) }
{
    host_parts::elements::tusweram_pair(frame, at, out)
}
