// The feature level that a word is decoded at.
ghost use Rattle.std.specs.Prelude.{◌≤◌};
ghost use Rattle.settings.specs.Settings.{max_level};

use encoding::DecodeRefusal;
use settings::Settings;

// A level that there is.
#[derive(Clone, Copy, Debug, PartialEq, Eq)]
pub(crate) struct Level {
    pub(crate) number: u64,
    ghost allowed: { number ≤ max_level },
}

impl TryFrom<u64> for Level {
    type Error = DecodeRefusal;

    ghost use Rattle.decoder.specs.Steps.{IsLevel};

    ghost try_from_gives = { IsLevel };

    fn try_from(number: u64) -> Result<Level, DecodeRefusal> {
        if Settings::MAX_LEVEL < number {
            return Err(DecodeRefusal::BadLevel);
        }
        Ok(Level { number })
    }
}
