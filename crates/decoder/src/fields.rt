// The numbers in a word's fields, by its kind and size (document 01 §4).
ghost use Rattle.std.specs.Prelude.{◌≡◌, eqb};
ghost use Rattle.encoding.specs.Word.{bits_at};
ghost use Rattle.decoder.specs.Steps.{slice_in, to_tile_in, whole_in, predicated_in, array_in, access_in};

use encoding::{
    ArrayToVectors, PredicatedTileToVector, RegisterCount, SliceAccess, TileToVector, VectorToTile,
};
use tiles::{Direction, ElementSize, TileSlice};

// A move to a tile.
pub fn to_tile_in(size: ElementSize, word: u32) -> VectorToTile
    ensures { result ≡ to_tile_in size word }
{
    VectorToTile {
        slice: slice_in(size, word, word),
        pg: (word / 1024 % 8) as u8,
        zn: (word / 32 % 32) as u8,
    }
}

// A move and zero from a tile.
pub fn whole_in(size: ElementSize, word: u32) -> TileToVector
    ensures { result ≡ whole_in size word }
{
    TileToVector {
        slice: slice_in(size, word, word / 32),
        zd: (word % 32) as u8,
    }
}

// A move from a tile under a predicate.
pub fn predicated_in(size: ElementSize, word: u32) -> PredicatedTileToVector
    ensures { result ≡ predicated_in size word }
{
    PredicatedTileToVector {
        whole: whole_in(size, word),
        pg: (word / 1024 % 8) as u8,
    }
}

// An array move, with or without zeroing.
pub fn array_in(registers: RegisterCount, word: u32) -> ArrayToVectors
    ensures { result ≡ array_in registers word }
{
    let first = (word % 32) as u8;
    ArrayToVectors {
        registers,
        rv: (8 + word / 8192 % 4) as u8,
        off: (word / 32 % 8) as u8,
        zd: first,
    }
}

// An array move zeroes what it moves. This and `stores_in` stay two: docs/PROOFS.md names both, and one function of a bit's number would be no
// shorter.
pub fn zeroes_in(word: u32) -> bool
    ensures { result ≡ eqb (bits_at 9 1 word) 1 }
{
    word / 512 % 2 == 1
}

// A load or store.
pub fn access_in(size: ElementSize, word: u32) -> SliceAccess
    ensures { result ≡ access_in size word }
{
    SliceAccess {
        slice: slice_in(size, word, word),
        pg: (word / 1024 % 8) as u8,
        rn: (word / 32 % 32) as u8,
        rm: (word / 65536 % 32) as u8,
    }
}

// It is a store.
pub fn stores_in(word: u32) -> bool
    ensures { result ≡ eqb (bits_at 21 1 word) 1 }
{
    word / 2097152 % 2 == 1
}

// The slice that a word of a size names. Tile and offset share the lowest four bits of x: shifts by the size's doublings part
// them, and no jump.
fn slice_in(size: ElementSize, word: u32, x: u32) -> TileSlice
    ensures { result ≡ slice_in size word x }
{
    let doublings = size.doublings();
    TileSlice {
        size,
        direction: Direction::of_number(word / 32768 % 2),
        index: (12 + word / 8192 % 4) as u8,
        tile: ((x % 16) >> (4 - doublings)) as u8,
        offset: (x & (15 >> doublings)) as u8,
    }
}
