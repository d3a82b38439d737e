// Decoding, for a host.
ghost use Rattle.std.specs.Prelude.{◌≡◌};
ghost use Rattle.protocol.specs.Decode.{decode_of};
ghost use Rattle.protocol.specs.Rules.{rules_of};
ghost use Rattle.host_layout.specs.LaidOut.{laid_out};

// The first message of a buffer, as decode::decode answers it.
#[unsafe(no_mangle)]
pub extern "C" fn tusweram_decode(mode: u8, buf: &[u8], out: &mut [usize; 16])
    ensures { out.new ≡ laid_out (decode_of (rules_of mode) buf.now) }
{
    host::decoding::tusweram_decode(mode, buf, out)
}
