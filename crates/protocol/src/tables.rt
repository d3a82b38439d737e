// The tables of kinds line by line, for programs: what the table at a place says.
// Inner: for crates of this library alone (docs/INNER.md).
ghost use Rattle.std.specs.Prelude.{◌≡◌, slice_get};
ghost use Rattle.protocol.specs.Lines.{letters_in, line_at, lined, table_of};
ghost use Rattle.protocol.specs.Rules.{rules_of};

use crate::kinds::{BACKEND, CANCEL, FIRST_PACKET, FRONTEND, GSS_ANSWER, Line, TLS_ANSWER};
use crate::mode::Mode;

fn line_in(table: &[Line], index: usize) -> Option<Line>
    ensures { result ≡ slice_get table.now index }
{
    table.get(index).copied()
}

// The line at a place of a mode's table, counted from 0: none behind the last, and none where the mode is unknown. The clause `line` says the same with
// the line of no kind in place of none.
pub fn line_at(mode: u8, index: usize) -> Option<Line>
    ensures there { result ≡ slice_get (table_of (rules_of mode)) index }
    ensures line { lined result ≡ line_at (rules_of mode) index }
{
    match Mode::try_from(mode) {
        Ok(Mode::Frontend) => line_in(&FRONTEND, index),
        Ok(Mode::Backend) => line_in(&BACKEND, index),
        Ok(Mode::CancelRequest) => line_in(&CANCEL, index),
        Ok(Mode::TlsAnswer) => line_in(&TLS_ANSWER, index),
        Ok(Mode::GssAnswer) => line_in(&GSS_ANSWER, index),
        Ok(Mode::FirstPacket) => line_in(&FIRST_PACKET, index),
        Err(_) => None,
    }
}

// How many letters the name of a line has, before the spaces that fill it up.
pub fn letters_in(name: [u8; 20]) -> usize
    ensures { result ≡ letters_in name }
{
    name.iter()
        .position(|letter| *letter == b' ')
        .unwrap_or(name.len())
}
