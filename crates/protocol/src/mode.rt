// Where a buffer's bytes come from (docs/FORMAT.md 1), by the number that a host names. Public calls and rules keep the number, as the C interface has it; what
// chooses by a mode makes a Mode of it.
ghost use Rattle.std.specs.Prelude.{◌≡◌, ◌<◌, MatchResult, Some};
ghost use Rattle.protocol.specs.Told.{mode_number};
ghost use Rattle.protocol.specs.Words.{unknown_mode_words};

use std::error::Error;
use std::fmt;

#[derive(Clone, Copy, Debug, PartialEq, Eq)]
pub enum Mode {
    Frontend = 0,
    Backend = 1,
    CancelRequest = 2,
    TlsAnswer = 3,
    GssAnswer = 4,
    FirstPacket = 5,
}

// A number that no mode has.
#[derive(Clone, Copy, Debug, PartialEq, Eq)]
pub struct UnknownMode(pub u8);

impl TryFrom<u8> for Mode {
    type Error = UnknownMode;

    ghost try_from_gives = { λ n r. MatchResult r (λ m. mode_number m ≡ n) (λ e. (5 < n) × (e.0 ≡ n)) };

    fn try_from(number: u8) -> Result<Mode, UnknownMode> {
        match number {
            0 => Ok(Mode::Frontend),
            1 => Ok(Mode::Backend),
            2 => Ok(Mode::CancelRequest),
            3 => Ok(Mode::TlsAnswer),
            4 => Ok(Mode::GssAnswer),
            5 => Ok(Mode::FirstPacket),
            _ => Err(UnknownMode(number)),
        }
    }
}

impl fmt::Display for UnknownMode {
    ghost output = { λ x. Some (unknown_mode_words x) };

    fn fmt<W: fmt::Write>(&self, f: &mut fmt::Formatter<W>) -> fmt::Result {
        write!(f, "no mode has the number {}", self.0)
    }
}

impl Error for UnknownMode {}
