// How far a load or store reaches (answers 6 and 7 of document 01 §6).
ghost use Rattle.std.specs.Prelude.{◌≡◌, ℕ, ◌+◌, ◌*◌, ◌%◌, ◌^◌, ◌<◌, ◌≤◌, not, ◌&&◌, List, length, ◌==◌};
ghost use Rattle.general.specs.Least.{least, is_some};
ghost use Rattle.settings.specs.Settings.{max_vector_bytes};
ghost use Rattle.tiles.specs.Element.{bytes_of};
ghost use Rattle.tiles.specs.Predicate.{active};
ghost use Rattle.encoding.specs.declared.operation.SliceAccess.{SliceAccess};
ghost use Rattle.access.specs.Window.{covered};
ghost use Rattle.access.specs.Promise.{First, Governs, Reaches};

use crate::address::first_address;
use crate::predicate::first_active;
use crate::window::Window;
use semantics::{Fault, Refusal};
use settings::Settings;
use tiles::{ElementSize, elements_in};

// Where a load or store goes.
#[derive(Clone, Copy, Debug, PartialEq, Eq)]
pub enum Reach {
    // The whole vector's bytes are in memory, from this index on.
    Whole(usize),
    // Every active byte is in memory, but not the whole vector.
    Parts(Window),
}

// Whether the base is the stack pointer and misaligned, an element is active, and the check is on.
fn is_stack_bad(check: bool, rn: u8, base: u64, governing: &[u8], size: ElementSize) -> bool
    requires { 8 * length governing.now ≤ max_vector_bytes }
    ensures { result ≡ (rn == 31) && is_some (least (active governing.now 0 (bytes_of size)) (8 * length governing.now)) && not (base % 16 == 0) && check }
{
    if rn != 31 {
        return false;
    }
    if base % 16 == 0 {
        return false;
    }
    if first_active(governing, size, 0, 8 * governing.len()).is_none() {
        return false;
    }
    // The switch last: tested before, it costs loads and stores by other bases a few instructions (docs/DECISIONS.md).
    check
}

// The first byte of an active element that a window leaves out.
fn first_fault(window: Window, governing: &[u8], size: ElementSize) -> Option<usize>
    requires { (window.skip + window.tail ≤ 8 * length governing.now) × (8 * length governing.now ≤ max_vector_bytes) }
    ensures { First (λ (k : ℕ). active governing.now 0 (bytes_of size) k && not (covered window k)) 0 (8 * length governing.now) result }
{
    let behind_head = first_active(governing, size, window.head, window.skip);
    if behind_head.is_some() {
        return behind_head;
    }
    first_active(
        governing,
        size,
        window.skip + window.tail,
        8 * governing.len(),
    )
}

// The stack check, and then the first byte of an active element outside memory. Fields and not the operation's record: with the record by value loads and
// stores took 7 % more instructions, by reference 6 %. Predicate bytes and size stay two parameters: `merge` and `replace` of the crate moves take them
// apart too, and here the address and the element's number need the size alone.
pub(crate) fn find_reach(
    size: ElementSize,
    rn: u8,
    rm: u8,
    settings: Settings,
    x: &[u64],
    governing: &[u8],
    memory_bytes: usize,
) -> Result<Reach, Refusal>
    requires { (rn < length x.now) × (rm < length x.now) × (0 < settings.vector_bytes) × (settings.vector_bytes ≤ max_vector_bytes) × (settings.vector_bytes ≡ 8 * length governing.now) × (settings.memory_address + memory_bytes ≤ 2 ^ 64) }
    ensures { (p : List ℕ) (o : SliceAccess) → Governs settings p o governing.now → (o.slice.size ≡ size) × (o.rn ≡ rn) × (o.rm ≡ rm) → Reaches settings x.now p memory_bytes o result }
{
    if is_stack_bad(settings.stack_check, rn, x[rn as usize], governing, size) {
        return Err(Refusal::StackMisaligned);
    }
    let n = settings.vector_bytes as usize;
    let start = first_address(x, size, rn, rm);
    let at = start.wrapping_sub(settings.memory_address);
    if n <= memory_bytes {
        if at <= (memory_bytes - n) as u64 {
            return Ok(Reach::Whole(at as usize));
        }
    }
    let window = Window::of(at, n, memory_bytes);
    if let Some(byte) = first_fault(window, governing, size) {
        let address = start.wrapping_add(byte as u64);
        // As many whole elements as there are before the byte: the number of its own.
        let element = elements_in(byte, size) as u64;
        return Err(Refusal::OutsideMemory(Fault { address, element }));
    }
    Ok(Reach::Parts(window))
}
