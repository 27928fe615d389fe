// Answers and their numbers (document 01 §6): a refusal has a number, and an answer that is no refusal is 0.
ghost use Rattle.std.specs.Prelude.{◌≡◌, MatchResult};
ghost use Rattle.settings.specs.Answer.{done, bad_settings};

use crate::Settings;

// Why settings are refused: a vector length is none of the five, the largest is below the other, or the level is none.
#[derive(Clone, Copy, Debug, PartialEq, Eq)]
pub struct BadSettings;

// What there is in place of settings that could not be made (document 01 §2).
#[derive(Clone, Copy, Debug, PartialEq, Eq)]
pub struct RefusedSettings {
    pub settings: Settings,
}

impl From<BadSettings> for u32 {
    ghost from_gives = { λ _ number. number ≡ bad_settings };

    fn from(_refusal: BadSettings) -> u32 {
        1
    }
}

impl From<RefusedSettings> for u32 {
    ghost from_gives = { λ _ number. number ≡ bad_settings };

    fn from(_refusal: RefusedSettings) -> u32 {
        BadSettings.into()
    }
}

// The number of an answer: 0 where it is done, else that of the refusal.
pub fn answer_number<T: Copy, E: Into<u32> + Copy>(answer: Result<T, E>) -> u32
    ensures { MatchResult answer (λ _. result ≡ done) (λ refusal. E.converts refusal result) }
{
    match answer {
        Ok(_) => 0,
        Err(refusal) => refusal.into(),
    }
}
