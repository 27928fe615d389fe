// What hosts link to run listings, over numbers and slices as in sme_move. It is a crate beside sme_move, and becomes an object of its own in the archive: so
// execution is compiled into each of the two, and neither a single word nor a listing pays for the other (docs/DECISIONS.md).
#![tactic(auto)]

ghost use Rattle.settings.specs.Lent.{settings_in};
ghost use Rattle.semantics.specs.State.{state_of};
ghost use Rattle.sme_listing.specs.Export.{ListingExports};

use settings::{Settings, answer_number, put_result};

// Runs a listing on the buffers that are lent, and returns the number of the answer that stopped it (document 01 §6, and 9), 0 at its end or at the allowance. The
// results are the address and the element that answer 7 carries, zeros with every other, and how many words were done (request 5); each is written where
// `results` has a place for it. A refused word changes no buffer, and neither does a call that is refused before any word ran.
#[unsafe(no_mangle)]
pub extern "C" fn sme_run_listing(
    given: &[u64],
    x: &[u64],
    z: &mut [u8],
    p: &[u8],
    za: &mut [u8],
    memory: &mut [u8],
    results: &mut [u64],
    listing: &[u8],
    allowance: u64,
) -> u32
    ensures { ListingExports (settings_in given.now) listing.now allowance (state_of x.now z.old p.now za.old memory.old) results.old result results.new (state_of x.now z.new p.now za.new memory.new) }
{
    let run = listing::run(
        Settings::from(given),
        listing,
        allowance,
        x,
        z,
        p,
        za,
        memory,
    );
    let answer = run.answer;
    let number = answer_number(answer);
    let fault = semantics::answer_fault(answer);
    put_result(results, 0, fault.address);
    put_result(results, 1, fault.element);
    put_result(results, 2, run.words);
    number
}
