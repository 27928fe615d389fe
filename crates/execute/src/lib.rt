// One call: the checks in order, then one operation (document 01 §5 and §6). The crate listing checks once and performs many
// words, so that both steps are public.
#![tactic(auto)]

ghost use Rattle.semantics.specs.State.{state_of};
ghost use Rattle.semantics.specs.Promise.{Executes};

use semantics::Refusal;
use settings::Settings;

mod array;
mod check;
pub mod perform;
mod tile;

pub use check::check_buffers;

// Executes one instruction word on buffers that the host lends: X of 32 numbers, Z of 32 registers, P
// of 16, ZA, and memory from the settings' address on. Every word, setting and buffer length has an
// answer, the lowest that applies; a refusal changes no buffer.
pub fn execute(
    settings: Settings,
    word: u32,
    x: &[u64],
    z: &mut [u8],
    p: &[u8],
    za: &mut [u8],
    memory: &mut [u8],
) -> Result<(), Refusal>
    ensures { Executes settings word (state_of x.now z.old p.now za.old memory.old) result (state_of x.now z.new p.now za.new memory.new) }
{
    check_buffers(settings, x.len(), z.len(), p.len(), za.len(), memory.len())?;
    perform::perform(settings, word, x, z, p, za, memory)
}
