// Items of one size: an oid, and a format code. They are passed by arithmetic.
ghost use Rattle.std.specs.Prelude.{◌<◌, ◌≡◌, length};
ghost use Rattle.protocol.specs.Kinds as K;
ghost use Rattle.codec.specs.CursorRead.{passed_read};
ghost use Rattle.items.specs.ItemRead.{pass_fixed};

use crate::{Format, Item, Oid};
use codec::{Cursor, signed16};
use protocol::refusal::{Refusal, Refused};
use protocol::{Element, Rules};

// Past `count` items of `size` bytes each. The first that is not whole is refused.
fn pass_fixed(frame: &[u8], c: Cursor, count: usize, size: u8) -> Result<Cursor, Refused>
    requires { 0 < size }
    ensures { passed_read result ≡ pass_fixed size count (length frame.now) c.at }
{
    let size = size as usize;
    let whole = frame.len().saturating_sub(c.at) / size;
    if whole < count {
        return Err(Refusal::Cut.at(c.at + whole * size));
    }
    Ok(Cursor {
        at: c.at + count * size,
    })
}

impl Item for Oid {
    ghost item = { K.oid };

    fn read(_rules: Rules, frame: &[u8], c: Cursor) -> Result<(Element, Cursor), Refused> {
        let Some((oid, c)) = c.word(frame) else {
            return Err(Refusal::Cut.at(c.at));
        };
        Ok((Element::Oid(oid), c))
    }

    fn pass(_rules: Rules, frame: &[u8], c: Cursor, count: usize) -> Result<Cursor, Refused> {
        pass_fixed(frame, c, count, 4)
    }
}

impl Item for Format {
    ghost item = { K.format };

    fn read(_rules: Rules, frame: &[u8], c: Cursor) -> Result<(Element, Cursor), Refused> {
        let Some((format, c)) = c.half(frame) else {
            return Err(Refusal::Cut.at(c.at));
        };
        Ok((Element::Format(signed16(format)), c))
    }

    fn pass(_rules: Rules, frame: &[u8], c: Cursor, count: usize) -> Result<Cursor, Refused> {
        pass_fixed(frame, c, count, 2)
    }
}
