// Tiles as numbers: which of them exist, and which share a byte.
ghost use Rattle.std.specs.Prelude.{◌≡◌, true};
ghost use Rattle.planner.specs.Tile.{is_size, is_tile, shares};

use tiles::ElementSize;

// A tile of ZA: the bytes of its elements and its number among the tiles of that size. Any numbers can be
// in a record, so that a tile that does not exist can be named too.
#[derive(Clone, Copy, Debug, PartialEq, Eq)]
pub struct Tile {
    pub bytes: u64,
    pub number: u64,
}

impl Tile {
    // What stands where no tile is: no element has 0 bytes.
    pub const NONE: Tile = Tile {
        bytes: 0,
        number: 0,
    };
}

// Whether elements can have this many bytes: whether the size that the number is read as has so many.
pub fn is_size(bytes: u64) -> bool
    ensures { result ≡ is_size bytes }
{
    if 16 < bytes {
        return false;
    }
    let size = ElementSize::of_bytes(bytes as u8);
    size.bytes() as u64 == bytes
}

pub fn is_tile(x: Tile) -> bool
    ensures { result ≡ is_tile x }
{
    is_size(x.bytes) && x.number < x.bytes
}

// Whether two tiles that exist share a byte: the one with the wider elements lies inside the other, or they share none.
pub fn is_shared(x: Tile, y: Tile) -> bool
    requires { (is_tile x ≡ true) × (is_tile y ≡ true) }
    ensures { result ≡ shares x y }
{
    let a = x.bytes;
    let b = y.bytes;
    if a < b {
        y.number % a == x.number
    } else {
        x.number % b == y.number
    }
}
