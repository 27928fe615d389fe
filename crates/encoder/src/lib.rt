// Encoding: the word that stands for an operation (document 01 §4), or a refusal where a field is
// outside its range.
#![tactic(auto)]

ghost use Rattle.std.specs.Prelude.{◌≡◌, true, ◌+◌, ◌*◌, ◌<◌, is_none};
ghost use Rattle.std.specs.Option.{unwrap_or};
ghost use Rattle.encoding.specs.Codec.{Encodes};
ghost use Rattle.encoding.specs.Steps.{size_bits, from_tile_move, from_tile_bits, array_move, array_bits, access_move, access_bits};
ghost use Rattle.encoder.specs.Steps.{offset_count, slice_held};

use encoding::{
    ArrayToVectors, Operation, OutOfRange, PredicatedTileToVector, RegisterCount, SliceAccess,
    TileToVector, VectorToTile,
};
use tiles::{ElementSize, TileSlice};

// The word of an operation. Inlined always, as `flatten` of flat is: else encoding eleven numbers takes 1.4 times the instructions (docs/DECISIONS.md).
#[inline(always)]
pub fn encode(operation: Operation) -> Result<u32, OutOfRange>
    ensures { Encodes operation result }
{
    match operation {
        Operation::MovaToTile(o) => encode_to_tile(o),
        Operation::MovazFromTile(o) => encode_from_tile(None, o),
        Operation::MovaFromArray(o) => encode_array(false, o),
        Operation::MovazFromArray(o) => encode_array(true, o),
        Operation::St1(o) => encode_access(true, o),
        Operation::MovaFromTile(PredicatedTileToVector { whole, pg }) => {
            encode_from_tile(Some(pg), whole)
        }
        Operation::Ld1(o) => encode_access(false, o),
    }
}

// A move to a tile.
fn encode_to_tile(o: VectorToTile) -> Result<u32, OutOfRange>
    ensures { Encodes (Operation.MovaToTile o) result }
{
    let VectorToTile { slice, pg, zn } = o;
    if !is_slice_held(slice) {
        return Err(OutOfRange);
    }
    if 7 < pg {
        return Err(OutOfRange);
    }
    if 31 < zn {
        return Err(OutOfRange);
    }
    Ok(
        0xC0000000
            + size_bits(slice.size) * 65536
            + slice.direction.number() as u32 * 32768
            + (slice.index - 12) as u32 * 8192
            + pg as u32 * 1024
            + zn as u32 * 32
            + shared_bits(slice),
    )
}

// A move from a tile, under a predicate, or without one, and then with zeroing. Moves to a tile, from one, loads and stores have functions of
// their own, since each has its fields in other bits.
fn encode_from_tile(predicate: Option<u8>, o: TileToVector) -> Result<u32, OutOfRange>
    ensures { Encodes (from_tile_move (is_none predicate) (unwrap_or predicate 0) o) result }
{
    let TileToVector { slice, zd } = o;
    let pg = predicate.unwrap_or(0);
    if 7 < pg {
        return Err(OutOfRange);
    }
    if !is_slice_held(slice) {
        return Err(OutOfRange);
    }
    if 31 < zd {
        return Err(OutOfRange);
    }
    Ok(
        0xC0020000
            + size_bits(slice.size) * 65536
            + slice.direction.number() as u32 * 32768
            + (slice.index - 12) as u32 * 8192
            + from_tile_bits(predicate) * 512
            + shared_bits(slice) * 32
            + zd as u32,
    )
}

// Bits 12:9 of a move from a tile: the predicate with bit 9 clear, or bit 9 alone.
fn from_tile_bits(predicate: Option<u8>) -> u32
    requires { unwrap_or predicate 0 < 8 }
    ensures { (result ≡ from_tile_bits (is_none predicate) (unwrap_or predicate 0)) × (result < 16) }
{
    match predicate {
        Some(pg) => pg as u32 * 2,
        None => 1,
    }
}

// Bits 12:8 of an array move. With zeroing or without is a bit of the word, and no two functions.
fn array_bits(zeroes: bool, registers: RegisterCount) -> u32
    ensures { (result ≡ array_bits zeroes registers) × (result < 32) }
{
    match registers {
        RegisterCount::Two => if zeroes { 0b01010 } else { 0b01000 },
        RegisterCount::Four => if zeroes { 0b01110 } else { 0b01100 },
    }
}

// An array move, with or without zeroing.
fn encode_array(zeroes: bool, o: ArrayToVectors) -> Result<u32, OutOfRange>
    ensures { Encodes (array_move zeroes o) result }
{
    let ArrayToVectors {
        registers,
        rv,
        off,
        zd,
    } = o;
    if rv < 8 {
        return Err(OutOfRange);
    }
    if 11 < rv {
        return Err(OutOfRange);
    }
    if 7 < off {
        return Err(OutOfRange);
    }
    if 31 < zd {
        return Err(OutOfRange);
    }
    if zd % registers.number() != 0 {
        return Err(OutOfRange);
    }
    Ok(
        0xC0060000
            + (rv - 8) as u32 * 8192
            + array_bits(zeroes, registers) * 256
            + off as u32 * 32
            + zd as u32,
    )
}

// Bits 31 to 21 of the word of a load or store: size, and whether it stores.
fn access_bits(stores: bool, size: ElementSize) -> u32
    ensures { (result ≡ access_bits stores size) × (result < 2048) }
{
    match size {
        ElementSize::Bits8 => if stores { 0x701 } else { 0x700 },
        ElementSize::Bits16 => if stores { 0x703 } else { 0x702 },
        ElementSize::Bits32 => if stores { 0x705 } else { 0x704 },
        ElementSize::Bits64 => if stores { 0x707 } else { 0x706 },
        ElementSize::Bits128 => if stores { 0x70F } else { 0x70E },
    }
}

// A store or a load: which of them is a bit of the word, and no two functions.
fn encode_access(stores: bool, o: SliceAccess) -> Result<u32, OutOfRange>
    ensures { Encodes (access_move stores o) result }
{
    let SliceAccess { slice, pg, rn, rm } = o;
    if !is_slice_held(slice) {
        return Err(OutOfRange);
    }
    if 7 < pg {
        return Err(OutOfRange);
    }
    if 31 < rn {
        return Err(OutOfRange);
    }
    if 31 < rm {
        return Err(OutOfRange);
    }
    Ok(
        access_bits(stores, slice.size) * 2097152
            + rm as u32 * 65536
            + slice.direction.number() as u32 * 32768
            + (slice.index - 12) as u32 * 8192
            + pg as u32 * 1024
            + rn as u32 * 32
            + shared_bits(slice),
    )
}

// Bits 23 to 16 of a tile move's word, without what tells its kind.
fn size_bits(size: ElementSize) -> u32
    ensures { (result ≡ size_bits size) × (result < 256) }
{
    match size {
        ElementSize::Bits8 => 0x00,
        ElementSize::Bits16 => 0x40,
        ElementSize::Bits32 => 0x80,
        ElementSize::Bits64 => 0xC0,
        ElementSize::Bits128 => 0xC1,
    }
}

// How many offsets a word of a size can have.
fn offset_count(size: ElementSize) -> u8
    ensures { (result ≡ offset_count size) × (result < 17) }
{
    match size {
        ElementSize::Bits8 => 16,
        ElementSize::Bits16 => 8,
        ElementSize::Bits32 => 4,
        ElementSize::Bits64 => 2,
        ElementSize::Bits128 => 1,
    }
}

// Whether a word can name the slice: an index register of 12 to 15, a tile that there is, an offset that fits its bits.
fn is_slice_held(slice: TileSlice) -> bool
    ensures { result ≡ slice_held slice }
{
    let TileSlice {
        size,
        index,
        tile,
        offset,
        ..
    } = slice;
    if index < 12 {
        return false;
    }
    if 15 < index {
        return false;
    }
    if size.bytes() <= tile {
        return false;
    }
    offset < offset_count(size)
}

// The four bits that the tile and the offset of a slice that a word can name share.
fn shared_bits(slice: TileSlice) -> u32
    requires { slice_held slice ≡ true }
    ensures { (result ≡ slice.tile * offset_count slice.size + slice.offset) × (result < 16) }
{
    let TileSlice {
        size,
        tile,
        offset,
        ..
    } = slice;
    tile as u32 * offset_count(size) as u32 + offset as u32
}
