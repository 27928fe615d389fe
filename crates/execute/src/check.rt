// The checks that look at settings and lengths alone (answers 1 and 2 of document 01 §6).
ghost use Rattle.execute.specs.Promise.{ChecksBuffers};

use semantics::Refusal;
use settings::{Lengths, Settings};

// Whether the settings are valid, the buffers have the lengths that the settings fix, and
// memory ends at 2^64 or before: Ok, or why not. Lengths are in elements: numbers for x, bytes for the others.
pub fn check_buffers(
    settings: Settings,
    x: usize,
    z: usize,
    p: usize,
    za: usize,
    memory: usize,
) -> Result<(), Refusal>
    ensures { ChecksBuffers settings x z p za memory result }
{
    settings.check()?;
    let given = Lengths {
        x: x as u64,
        z: z as u64,
        p: p as u64,
        za: za as u64,
    };
    if given != settings.lengths() {
        return Err(Refusal::BadLengths);
    }
    if 0 < memory {
        if u64::MAX - settings.memory_address < memory as u64 - 1 {
            return Err(Refusal::BadLengths);
        }
    }
    Ok(())
}
