// The answer of a listing (request 5).
ghost use Rattle.std.specs.Prelude.{◌≡◌};
ghost use Rattle.listing.specs.Answer.{listing_refusal_number, listing_refusal_fault};
ghost use Rattle.listing.specs.declared.answer.ListingRefusal.TheVariants.{Refused};

use semantics::{Fault, Refusal};

// Why a listing did not go on.
#[derive(Clone, Copy, Debug, PartialEq, Eq)]
pub enum ListingRefusal {
    // Its length is not a multiple of 4: no word was run.
    BadListing,
    // As a word is refused: for settings or lengths, before any word was run, or the word itself.
    Refused(Refusal),
}

// How many words were done, and the answer: done at the end or at the allowance. The count stands beside the answer and not inside Ok: words before a
// refused one count too (`RunsListing`).
#[derive(Clone, Copy, Debug, PartialEq, Eq)]
pub struct ListingRun {
    pub words: u64,
    pub answer: Result<(), ListingRefusal>,
}

impl From<Refusal> for ListingRefusal {
    ghost from_gives = { λ refusal listing_refusal. listing_refusal ≡ Refused refusal };

    fn from(refusal: Refusal) -> ListingRefusal {
        Self::Refused(refusal)
    }
}

// The answer's number of document 01 §6, and 9.
impl From<ListingRefusal> for u32 {
    ghost from_gives = { λ refusal number. number ≡ listing_refusal_number refusal };

    fn from(refusal: ListingRefusal) -> u32 {
        match refusal {
            ListingRefusal::BadListing => 9,
            ListingRefusal::Refused(refusal) => u32::from(refusal),
        }
    }
}

// What answer 7 carries, zeros with every other (request 6).
impl From<ListingRefusal> for Fault {
    ghost from_gives = { λ refusal fault. fault ≡ listing_refusal_fault refusal };

    fn from(refusal: ListingRefusal) -> Fault {
        match refusal {
            ListingRefusal::BadListing => Fault::NONE,
            ListingRefusal::Refused(refusal) => refusal.into(),
        }
    }
}
