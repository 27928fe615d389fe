// The answer of one execution (document 01 §6): done, or why nothing was.
ghost use Rattle.std.specs.Prelude.{◌≡◌, MatchResult};
ghost use Rattle.semantics.specs.declared.answer.Refusal.TheVariants as variants;
ghost use Rattle.semantics.specs.Answer.{refusal_number, refusal_fault, no_fault};

use settings::BadSettings;

// Where a load or store leaves memory: the address of the first byte that is not in memory, of the lowest-numbered active
// element that has one, and the number of that element (request 6).
#[derive(Clone, Copy, Debug, PartialEq, Eq)]
pub struct Fault {
    pub address: u64,
    pub element: u64,
}

impl Fault {
    // What an answer carries that carries nothing.
    pub const NONE: Fault = Fault {
        address: 0,
        element: 0,
    };
}

// Why nothing was done.
#[derive(Clone, Copy, Debug, PartialEq, Eq)]
pub enum Refusal {
    BadSettings,
    BadLengths,
    Undecodable,
    StreamingOff,
    ZaOff,
    StackMisaligned,
    OutsideMemory(Fault),
}

// The answer's number of document 01 §6.
impl From<Refusal> for u32 {
    ghost from_gives = { λ refusal number. number ≡ refusal_number refusal };

    fn from(refusal: Refusal) -> u32 {
        match refusal {
            Refusal::BadSettings => 1,
            Refusal::BadLengths => 2,
            Refusal::Undecodable => 3,
            Refusal::StreamingOff => 4,
            Refusal::ZaOff => 5,
            Refusal::StackMisaligned => 6,
            Refusal::OutsideMemory(_) => 7,
        }
    }
}

impl From<BadSettings> for Refusal {
    ghost from_gives = { λ _ refusal. refusal ≡ variants.BadSettings };

    fn from(_refusal: BadSettings) -> Refusal {
        Self::BadSettings
    }
}

// What an answer carries: that of answer 7, zeros with every other (request 6).
impl From<Refusal> for Fault {
    ghost from_gives = { λ refusal fault. fault ≡ refusal_fault refusal };

    fn from(refusal: Refusal) -> Fault {
        match refusal {
            Refusal::OutsideMemory(fault) => fault,
            _ => Fault::NONE,
        }
    }
}

// The same of any answer, zeros where it is done: the results that a host gets.
pub fn answer_fault<T: Copy, E: Into<Fault> + Copy>(answer: Result<T, E>) -> Fault
    ensures { MatchResult answer (λ _. result ≡ no_fault) (λ refusal. E.converts refusal result) }
{
    match answer {
        Ok(_) => Fault::NONE,
        Err(refusal) => refusal.into(),
    }
}
