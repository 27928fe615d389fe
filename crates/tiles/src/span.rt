// Where elements lie in a buffer. Registers, slices and stretches of memory are all given to the crate moves so; how far
// apart vectors start is asked of the settings here, and nowhere above. That the vector lengths are allowed is a clause of three functions, and
// no type: docs/PROOFS.md names them, and a type that holds it would ask more of whoever calls them.
ghost use Rattle.std.specs.Prelude.{◌≡◌, true, ◌*◌, ◌/◌, ◌<◌, ◌≤◌, length};
ghost use Rattle.settings.specs.Settings.{valid_vectors, max_vector_bytes, stride_of};
ghost use Rattle.tiles.specs.Element.{bytes_of};
ghost use Rattle.tiles.specs.Span.{run_from, slice_span};

use crate::direction::Direction;
use crate::element::{ElementSize, elements_in};
use crate::slice::{TileSlice, selected};
use settings::Settings;

// So many elements; element e starts at index start + e * step. Their size is told beside it.
#[derive(Clone, Copy, Debug, PartialEq, Eq)]
pub struct Span {
    pub start: usize,
    pub step: usize,
    pub count: usize,
}

// A vector's elements, one after another from an index on.
pub fn run_from(start: usize, settings: Settings, size: ElementSize) -> Span
    ensures { result ≡ run_from settings size start }
{
    Span {
        start,
        step: size.bytes() as usize,
        count: elements_in(settings.vector_bytes as usize, size),
    }
}

// The elements of a vector register, or of a vector of the ZA array, by its number.
pub fn vector_span(number: usize, settings: Settings, size: ElementSize) -> Span
    requires { (valid_vectors settings ≡ true) × (number ≤ max_vector_bytes) }
    ensures { result ≡ run_from settings size (number * stride_of settings) }
{
    run_from(number * settings.stride() as usize, settings, size)
}

// The index of a predicate register's first byte.
pub fn predicate_start(number: u8, settings: Settings) -> usize
    requires { valid_vectors settings ≡ true }
    ensures { result ≡ number * (stride_of settings / 8) }
{
    number as usize * (settings.stride() as usize / 8)
}

// The elements of the slice that a word names.
pub fn slice_span(slice: TileSlice, settings: Settings, x: &[u64]) -> Span
    requires { (valid_vectors settings ≡ true) × (slice.index < length x.now) × (slice.offset < 16) × (slice.tile < bytes_of slice.size) }
    ensures { result ≡ slice_span settings x.now slice }
{
    let size = slice.size;
    let m = size.bytes() as usize;
    let count = elements_in(settings.vector_bytes as usize, size);
    let number = selected(x[slice.index as usize], slice.offset, count);
    let tile = slice.tile as usize;
    let stride = settings.stride() as usize;
    let direction = slice.direction;
    match direction {
        Direction::Horizontal => Span {
            start: (number * m + tile) * stride,
            step: m,
            count,
        },
        Direction::Vertical => Span {
            start: tile * stride + number * m,
            step: m * stride,
            count,
        },
    }
}
