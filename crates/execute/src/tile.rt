// Moves between a vector register and a tile slice (document 01 §5). They are three functions, since each is lent what it touches (and P, of which the contract
// speaks), and only what it writes for writing: what they have in common is what they call. Settings and buffers stay parameters, as perform.rt of
// execute says.
ghost use Rattle.std.specs.Prelude.{length};
ghost use Rattle.encoding.specs.Range.{ToTileInRange, FromTileInRange, PredicatedInRange};
ghost use Rattle.encoding.specs.declared.operation.Operation.TheVariants.{MovaToTile, MovazFromTile, MovaFromTile};
ghost use Rattle.semantics.specs.Steps.{Sized, Moves};

use encoding::{PredicatedTileToVector, TileToVector, VectorToTile};
use settings::Settings;
use tiles::{slice_span, vector_span};

// Copies the active elements of a vector register to a slice of a tile.
pub(crate) fn move_to_tile(
    operation: VectorToTile,
    settings: Settings,
    x: &[u64],
    z: &[u8],
    p: &[u8],
    za: &mut [u8],
)
    requires { Sized settings (length x.now) (length z.now) (length p.now) (length za.old) 0 × ToTileInRange operation }
    ensures { Moves settings (MovaToTile operation) x.now z.now p.now za.old z.now za.new }
{
    let slice = operation.slice;
    let size = slice.size;
    let to = slice_span(slice, settings, x);
    let from = vector_span(operation.zn as usize, settings, size);
    let governing = moves::governing_bytes(operation.pg, settings, p);
    moves::merge(za, to, z, from, governing, size);
}

// Moves a slice of a tile to a vector register; the slice is then zero.
pub(crate) fn take_from_tile(
    operation: TileToVector,
    settings: Settings,
    x: &[u64],
    z: &mut [u8],
    p: &[u8],
    za: &mut [u8],
)
    requires { Sized settings (length x.now) (length z.old) (length p.now) (length za.old) 0 × FromTileInRange operation }
    ensures { Moves settings (MovazFromTile operation) x.now z.old p.now za.old z.new za.new }
{
    let slice = operation.slice;
    let size = slice.size;
    let from = slice_span(slice, settings, x);
    let to = vector_span(operation.zd as usize, settings, size);
    moves::take(z, to, za, from, size);
}

// Copies the active elements of a slice of a tile to a vector register; the others of the register stay.
pub(crate) fn move_from_tile(
    operation: PredicatedTileToVector,
    settings: Settings,
    x: &[u64],
    z: &mut [u8],
    p: &[u8],
    za: &[u8],
)
    requires { Sized settings (length x.now) (length z.old) (length p.now) (length za.now) 0 × PredicatedInRange operation }
    ensures { Moves settings (MovaFromTile operation) x.now z.old p.now za.now z.new za.now }
{
    let whole = operation.whole;
    let slice = whole.slice;
    let size = slice.size;
    let from = slice_span(slice, settings, x);
    let to = vector_span(whole.zd as usize, settings, size);
    let governing = moves::governing_bytes(operation.pg, settings, p);
    moves::merge(z, to, za, from, governing, size);
}
