// A listing, run in one call (request 5): settings and lengths are checked once, and then its words are performed one after
// another, up to the first that is not done. Settings and buffers stay parameters, as perform.rt of execute says.
#![tactic(auto)]

ghost use Rattle.std.specs.Prelude.{◌≡◌, ◌*◌, ◌/◌, ◌≤◌, min, length};
ghost use Rattle.semantics.specs.State.{state_of};
ghost use Rattle.semantics.specs.Run.{run_of};
ghost use Rattle.semantics.specs.Steps.{Sized};
ghost use Rattle.listing.specs.Words.{words_from};
ghost use Rattle.listing.specs.Promise.{RunsListing};
ghost use Rattle.listing.specs.Steps.{EndsAs};

use crate::word::word_at;
use settings::Settings;

mod answer;
mod word;

pub use answer::{ListingRefusal, ListingRun};

// Runs a listing on buffers that the host lends, as `execute` does for one word: at most as many words as the allowance says,
// up to the first that is not done. What words did before a refused one stays. Every listing, allowance, setting and buffer
// length has an answer; settings and lengths are checked also where no word is to run.
pub fn run(
    settings: Settings,
    listing: &[u8],
    allowance: u64,
    x: &[u64],
    z: &mut [u8],
    p: &[u8],
    za: &mut [u8],
    memory: &mut [u8],
) -> ListingRun
    ensures { RunsListing settings listing.now allowance (state_of x.now z.old p.now za.old memory.old) result (state_of x.now z.new p.now za.new memory.new) }
{
    let checked = execute::check_buffers(
        settings,
        x.len(),
        z.len(),
        p.len(),
        za.len(),
        memory.len(),
    );
    if let Err(refusal) = checked {
        return ListingRun {
            words: 0,
            answer: Err(refusal.into()),
        };
    }
    if listing.len() % 4 != 0 {
        return ListingRun {
            words: 0,
            answer: Err(ListingRefusal::BadListing),
        };
    }
    let n = allowed_words(listing.len(), allowance);
    perform_words(settings, listing, n, x, z, p, za, memory)
}

// How many words may run: those of a listing of so many bytes, but no more than the allowance.
fn allowed_words(bytes: usize, allowance: u64) -> usize
    ensures { result ≡ min allowance (bytes / 4) }
{
    allowance.min(bytes as u64 / 4) as usize
}

// Performs the first n words of a listing one after another, up to the first that is not done.
fn perform_words(
    settings: Settings,
    listing: &[u8],
    n: usize,
    x: &[u64],
    z: &mut [u8],
    p: &[u8],
    za: &mut [u8],
    memory: &mut [u8],
) -> ListingRun
    requires { Sized settings (length x.now) (length z.old) (length p.now) (length za.old) (length memory.old) × (4 * n ≤ length listing.now) }
    ensures { EndsAs (run_of settings (words_from listing.now 0 n) (state_of x.now z.old p.now za.old memory.old)) result (state_of x.now z.new p.now za.new memory.new) }
{
    for i in 0..n {
        let word = word_at(listing, i);
        if let Err(refusal) = execute::perform::perform(settings, word, x, z, p, za, memory) {
            return ListingRun {
                words: i as u64,
                answer: Err(refusal.into()),
            };
        }
    }
    ListingRun {
        words: n as u64,
        answer: Ok(()),
    }
}
