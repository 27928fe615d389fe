// Moves from the vectors of the ZA array to vector registers (document 01 §5). Settings and buffers stay parameters, as perform.rt of
// execute says; P is among them, since the contract speaks of it.
ghost use Rattle.std.specs.Prelude.{◌≡◌, true, ◌+◌, ◌/◌, ◌%◌, ◌^◌, ◌<◌, ◌≤◌, length};
ghost use Rattle.settings.specs.Settings.{is_vector_length, lengths_of};
ghost use Rattle.tiles.specs.Group.{group_of};
ghost use Rattle.encoding.specs.Flat.{registers_of};
ghost use Rattle.encoding.specs.Range.{ArrayInRange};
ghost use Rattle.encoding.specs.Steps.{array_move};
ghost use Rattle.semantics.specs.Steps.{Sized, Moves};
ghost use Rattle.execute.specs.Promise.{InGroup, TakesVector, GroupTaken};

use encoding::{ArrayToVectors, RegisterCount};
use settings::Settings;
use tiles::{ElementSize, vector_span};

// How far apart the vectors of a group are, which is also how many groups there are. Each number is divided by a constant, which is a shift.
fn group_stride(vector_bytes: usize, registers: RegisterCount) -> usize
    ensures { result ≡ vector_bytes / registers_of registers }
{
    match registers {
        RegisterCount::Two => vector_bytes / 2,
        RegisterCount::Four => vector_bytes / 4,
    }
}

// The numbers of the vectors of the group that an index register and an offset name: the first, and three more, each a
// group's stride further.
fn group_of(registers: RegisterCount, index: u64, offset: u8, vector_bytes: usize) -> [usize; 4]
    requires { (is_vector_length vector_bytes ≡ true) × (offset < 16) }
    ensures { result ≡ group_of vector_bytes (registers_of registers) ((index % 2 ^ 32 + offset) % (vector_bytes / registers_of registers)) }
{
    let apart = group_stride(vector_bytes, registers);
    let first = tiles::selected(index, offset, apart);
    // Each from the one before, which takes fewer registers than products do.
    let second = first + apart;
    let third = second + apart;
    [first, second, third, third + apart]
}

// Copies a vector of the ZA array to a vector register, and then sets it to zero if that is asked for: a bit of the word, known only when it runs, so
// that a const parameter would only move the `if` to where one of two instances is called.
fn take_vector(
    zeroes: bool,
    register: usize,
    vector: usize,
    settings: Settings,
    z: &mut [u8],
    za: &mut [u8],
)
    requires { Sized settings 32 (length z.old) (lengths_of settings).p (length za.old) 0 × (register < 32) × (vector < settings.vector_bytes) }
    ensures { TakesVector settings zeroes register vector z.old za.old z.new za.new }
{
    let size = ElementSize::Bits8;
    let to = vector_span(register, settings, size);
    let from = vector_span(vector, settings, size);
    if zeroes {
        moves::take(z, to, za, from, size);
    } else {
        moves::copy(z, to, za, from, size);
    }
}

// Copies the vectors of a group to vector registers, the first of which is zd, and zeroes them if that is asked for.
fn take_group(
    zeroes: bool,
    group: [usize; 4],
    registers: RegisterCount,
    zd: usize,
    settings: Settings,
    z: &mut [u8],
    za: &mut [u8],
)
    requires { Sized settings 32 (length z.old) (lengths_of settings).p (length za.old) 0 × (zd + registers_of registers ≤ 32) × InGroup settings.vector_bytes (registers_of registers) group }
    ensures { GroupTaken settings zeroes zd group z.old za.old (registers_of registers) z.new za.new }
{
    for (i, vector) in group[..registers.number() as usize].iter().enumerate() {
        take_vector(zeroes, zd + i, *vector, settings, z, za);
    }
}

// Copies the vectors of a group to vector registers, and zeroes them if that is asked for.
pub(crate) fn take_from_array(
    zeroes: bool,
    operation: ArrayToVectors,
    settings: Settings,
    x: &[u64],
    z: &mut [u8],
    p: &[u8],
    za: &mut [u8],
)
    requires { Sized settings (length x.now) (length z.old) (length p.now) (length za.old) 0 × ArrayInRange operation }
    ensures { Moves settings (array_move zeroes operation) x.now z.old p.now za.old z.new za.new }
{
    let registers = operation.registers;
    let index = x[operation.rv as usize];
    let n = settings.vector_bytes as usize;
    let group = group_of(registers, index, operation.off, n);
    take_group(
        zeroes,
        group,
        registers,
        operation.zd as usize,
        settings,
        z,
        za,
    );
}
