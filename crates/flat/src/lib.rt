// The flat form: an operation as eleven numbers, for hosts: kind, element bytes, direction, tile,
// offset, index register, predicate, first vector register, base register, offset register, number of
// vector registers. A number that a kind does not have is 0. (specs/Flat.antt of the crate encoding lists them by kind.)
#![tactic(auto)]

ghost use Rattle.std.specs.Prelude.{◌≡◌};
ghost use Rattle.encoding.specs.Flat.{slice_flat, array_flat, flat_of, slice_of, tile_to_vector_of, array_to_vectors_of, slice_access_of, operation_of};
ghost use Rattle.encoding.specs.Codec.{Unflattens, EncodesFlat};

use encoding::{
    ArrayToVectors, Operation, OutOfRange, PredicatedTileToVector, RegisterCount, SliceAccess,
    TileToVector, VectorToTile,
};
use tiles::{Direction, ElementSize, TileSlice};

// The eleven numbers of an operation. A function, as `unflatten` is, and no From: docs/PROOFS.md names both, and operation and numbers are
// types of other crates, so that no impl may stand here. Inlined always, as `encode` of encoder is.
#[inline(always)]
pub fn flatten(operation: Operation) -> [u8; 11]
    ensures { result ≡ flat_of operation }
{
    match operation {
        Operation::MovaToTile(o) => slice_numbers(1, o.slice, o.pg, o.zn, 0, 0, 1),
        Operation::MovazFromTile(o) => slice_numbers(2, o.slice, 0, o.zd, 0, 0, 1),
        Operation::MovaFromArray(o) => array_numbers(3, o),
        Operation::MovazFromArray(o) => array_numbers(4, o),
        Operation::St1(o) => slice_numbers(5, o.slice, o.pg, 0, o.rn, o.rm, 0),
        Operation::MovaFromTile(PredicatedTileToVector { whole, pg }) => {
            slice_numbers(6, whole.slice, pg, whole.zd, 0, 0, 1)
        }
        Operation::Ld1(o) => slice_numbers(7, o.slice, o.pg, 0, o.rn, o.rm, 0),
    }
}

// The eleven numbers of an operation on a tile's slice.
fn slice_numbers(
    kind: u8,
    slice: TileSlice,
    predicate: u8,
    vector: u8,
    base: u8,
    addend: u8,
    registers: u8,
) -> [u8; 11]
    ensures { result ≡ slice_flat kind slice predicate vector base addend registers }
{
    [
        kind,
        slice.size.bytes(),
        slice.direction.number(),
        slice.tile,
        slice.offset,
        slice.index,
        predicate,
        vector,
        base,
        addend,
        registers,
    ]
}

// The eleven numbers of an array move.
fn array_numbers(kind: u8, o: ArrayToVectors) -> [u8; 11]
    ensures { result ≡ array_flat kind o }
{
    let registers = o.registers.number();
    [kind, 0, 0, 0, o.off, o.rv, 0, o.zd, 0, 0, registers]
}

// The operation that has these eleven numbers. OutOfRange where none has: for an unknown kind, size,
// direction or number of registers, and for anything but 0 where the kind has no such number.
pub fn unflatten(numbers: &[u8; 11]) -> Result<Operation, OutOfRange>
    ensures { Unflattens numbers.now result }
{
    let operation = operation_of(numbers);
    if flatten(operation) == *numbers {
        Ok(operation)
    } else {
        Err(OutOfRange)
    }
}

// The word of the operation that has these eleven numbers. OutOfRange where none has, or where no
// word has its operation.
pub fn encode_flat(numbers: &[u8; 11]) -> Result<u32, OutOfRange>
    ensures { EncodesFlat numbers.now result }
{
    encoder::encode(unflatten(numbers)?)
}

// The operation that eleven numbers name, if they name one. Kinds are numbers here and in `flatten` alone: hosts in C have them so.
fn operation_of(numbers: &[u8; 11]) -> Operation
    ensures { result ≡ operation_of numbers.now }
{
    match numbers[0] {
        1 => Operation::MovaToTile(VectorToTile {
            slice: slice_of(numbers),
            pg: numbers[6],
            zn: numbers[7],
        }),
        2 => Operation::MovazFromTile(tile_to_vector_of(numbers)),
        3 => Operation::MovaFromArray(array_to_vectors_of(numbers)),
        4 => Operation::MovazFromArray(array_to_vectors_of(numbers)),
        5 => Operation::St1(slice_access_of(numbers)),
        6 => Operation::MovaFromTile(PredicatedTileToVector {
            whole: tile_to_vector_of(numbers),
            pg: numbers[6],
        }),
        _ => Operation::Ld1(slice_access_of(numbers)),
    }
}

// The slice in the eleven numbers.
fn slice_of(numbers: &[u8; 11]) -> TileSlice
    ensures { result ≡ slice_of numbers.now }
{
    TileSlice {
        size: ElementSize::of_bytes(numbers[1]),
        direction: Direction::of_number(u32::from(numbers[2])),
        index: numbers[5],
        tile: numbers[3],
        offset: numbers[4],
    }
}

// The move of a tile slice to a vector register in the eleven numbers.
fn tile_to_vector_of(numbers: &[u8; 11]) -> TileToVector
    ensures { result ≡ tile_to_vector_of numbers.now }
{
    TileToVector {
        slice: slice_of(numbers),
        zd: numbers[7],
    }
}

// The move of a vector group in the eleven numbers.
fn array_to_vectors_of(numbers: &[u8; 11]) -> ArrayToVectors
    ensures { result ≡ array_to_vectors_of numbers.now }
{
    ArrayToVectors {
        registers: RegisterCount::of_number(numbers[10]),
        rv: numbers[5],
        off: numbers[4],
        zd: numbers[7],
    }
}

// The load or store of a tile slice in the eleven numbers.
fn slice_access_of(numbers: &[u8; 11]) -> SliceAccess
    ensures { result ≡ slice_access_of numbers.now }
{
    SliceAccess {
        slice: slice_of(numbers),
        pg: numbers[6],
        rn: numbers[8],
        rm: numbers[9],
    }
}
