// The slice of a tile that a word names: an index register and an offset, modulo how many slices there are (document 01 §5).
ghost use Rattle.std.specs.Prelude.{◌≡◌, ◌+◌, ◌%◌, ◌^◌, ◌<◌, ◌≤◌};
ghost use Rattle.settings.specs.Settings.{max_vector_bytes};
ghost use Rattle.tiles.specs.Slice.{PowerOfTwo};

use crate::direction::Direction;
use crate::element::ElementSize;

// A slice of a tile as a word names it. Its number is the low 32 bits of the index register and the offset, modulo how many
// slices the tile has.
#[derive(Clone, Copy, Debug, PartialEq, Eq)]
pub struct TileSlice {
    pub size: ElementSize,
    pub direction: Direction,
    pub index: u8,
    pub tile: u8,
    pub offset: u8,
}

// (W + offset) mod n over whole numbers, W the low 32 bits of x. Every count of slices and of groups is a power of two. That the
// offset is below 16 is a clause here and in two functions above, and no type: docs/PROOFS.md names this one and `slice_span`.
pub fn selected(x: u64, offset: u8, n: usize) -> usize
    requires { PowerOfTwo n × (n ≤ max_vector_bytes) × (offset < 16) }
    ensures { (result ≡ (x % 2 ^ 32 + offset) % n) × (result < n) }
{
    let w = x % 4294967296;
    ((w + offset as u64) & (n as u64 - 1)) as usize
}
