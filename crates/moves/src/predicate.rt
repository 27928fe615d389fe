// Predicate bytes looked at together: eight as one number, of which the first is the lowest byte.
ghost use Rattle.std.specs.Prelude.{◌≡◌, true, ◌+◌, ◌≤◌, length};
ghost use Rattle.tiles.specs.declared.element.ElementSize.{ElementSize};
ghost use Rattle.moves.specs.Eights.{eight_at, eight_bits, InEights, AllActive};

use tiles::ElementSize;

// Eight predicate bytes, from index at on. The compiler makes one load of it.
#[tactic(auto, unfolding(general::specs::Number::number))]
pub(crate) fn eight(p: &[u8], at: usize) -> u64
    requires { at + 8 ≤ length p.now }
    ensures { result ≡ eight_at p.now at }
{
    u64::from_le_bytes(p[at..at + 8].try_into().unwrap())
}

// The bits of eight predicate bytes that elements of a size go by. The usual all-true predicate of a size has these and no others.
#[tactic(auto, unfolding(general::specs::Number::number))]
pub(crate) fn element_bits(size: ElementSize) -> u64
    ensures { result ≡ eight_bits size }
{
    match size {
        ElementSize::Bits8 => 0xFFFFFFFFFFFFFFFF,
        ElementSize::Bits16 => 0x5555555555555555,
        ElementSize::Bits32 => 0x1111111111111111,
        ElementSize::Bits64 => 0x0101010101010101,
        ElementSize::Bits128 => 0x0001000100010001,
    }
}

// Whether every element is active, as eight predicate bytes at a time tell; no where there are fewer than eight, whatever they are.
// By index: over `chunks_exact(8)` `returns-then-p-ge8` did not close (std has no `YieldsList` of exact chunks), and `eight` would
// be given an index that is always 0: no plainer.
// `InEights` stays a clause: p is a borrowed part, and a struct for it would only wrap the slice.
pub(crate) fn is_full(p: &[u8], size: ElementSize) -> bool
    requires { InEights p.now }
    ensures { result ≡ true → AllActive p.now size }
{
    let bits = element_bits(size);
    let n = p.len() / 8;
    0 < n && (0..n).all(|g| eight(p, g * 8) & bits == bits)
}
