// What kind of operation a word stands for, and of which size: what its fixed bits say, from the top down (document 01 §4).
// Execution asks for this alone: a record of fields is made where it is used, and no whole operation is stored and loaded.
ghost use Rattle.std.specs.Prelude.{◌≡◌, ◌≢◌, ◌/◌, ◌%◌, ◌≤◌, ◌<◌, IfSome, IsNone};
ghost use Rattle.settings.specs.Settings.{max_level};
ghost use Rattle.encoding.specs.Steps.{size_bits};
ghost use Rattle.encoding.specs.Word.{bits_at};
ghost use Rattle.decoder.specs.Steps.{array_level, Classifies, ClassifiesEver, TileMove};

use crate::fields::zeroes_in;
use crate::level::Level;
use encoding::RegisterCount;
use tiles::ElementSize;

// The kind of a word, with its element size or its number of registers. `Take` is the move and zero from a tile. Whether an
// array move zeroes, and whether an access stores, is a bit of the word: `zeroes_in`, `stores_in`.
#[derive(Clone, Copy, Debug, PartialEq, Eq)]
pub enum Class {
    ToTile(ElementSize),
    FromTile(ElementSize),
    Take(ElementSize),
    Array(RegisterCount),
    Access(ElementSize),
}

// The class of a word at a feature level that there is; None for a word that is no instruction of the level.
pub fn classify(word: u32, level: u64) -> Option<Class>
    requires { level ≤ max_level }
    ensures { Classifies word level result }
{
    match word / 16777216 % 256 {
        0xC0 => classify_move(word, Level { number: level }),
        _ => classify_access(word, Level { number: level }),
    }
}

// A word whose bits 31:24 are C0: the register moves, by bits 21:17. Of the widest elements are those with bits 23:22 and 16
// set. This and `classify_access` are small enough to be copied into both their callers: so nothing of a class goes through
// memory where words are executed.
pub(crate) fn classify_move(word: u32, level: Level) -> Option<Class>
    requires { bits_at 24 8 word ≡ 0xC0 }
    ensures { Classifies word level.number result }
{
    if level.number < 1 {
        return None;
    }
    let two = word / 4194304 % 4;
    let wide = word / 65536 % 2;
    let size = size_in(two, wide)?;
    match word / 131072 % 32 {
        0 => classify_to(size, word),
        1 => classify_from(size, word, level),
        3 => if two + wide == 0 {
            classify_array(word, level)
        } else {
            None
        },
        _ => None,
    }
}

// The size of a word with these bits 23:22 and, for the widest, one more, which goes with both of them set: a match that is a
// number's own value, so that no jump goes by the size.
fn size_in(two: u32, wide: u32) -> Option<ElementSize>
    requires { (two < 4) × (wide < 2) }
    ensures some { IfSome result (λ size. (two ≡ size_bits size / 64) × (wide ≡ size_bits size % 2)) }
    ensures none { IsNone result → (wide ≡ 1) × (two ≢ 3) }
{
    if wide == 1 && two != 3 {
        return None;
    }
    Some(match two + wide {
        0 => ElementSize::Bits8,
        1 => ElementSize::Bits16,
        2 => ElementSize::Bits32,
        3 => ElementSize::Bits64,
        _ => ElementSize::Bits128,
    })
}

// A move to a tile, which has a fixed bit between its fields.
fn classify_to(size: ElementSize, word: u32) -> Option<Class>
    requires { TileMove 0 size word }
    ensures { ClassifiesEver word result }
{
    if word / 16 % 2 != 0 {
        return None;
    }
    Some(Class::ToTile(size))
}

// A move from a tile: bit 9 tells the move and zero from the move under a predicate, which is in bits 12:10.
fn classify_from(size: ElementSize, word: u32, level: Level) -> Option<Class>
    requires { (1 ≤ level.number) × TileMove 1 size word }
    ensures { Classifies word level.number result }
{
    if word / 512 % 2 == 0 {
        return Some(Class::FromTile(size));
    }
    if level.number < 3 {
        return None;
    }
    if word / 1024 % 8 != 0 {
        return None;
    }
    Some(Class::Take(size))
}

// A word whose bits 31:16 are C006: the array moves, with zeroing by bit 9 and of two or four registers by bit 10.
fn classify_array(word: u32, level: Level) -> Option<Class>
    requires { (bits_at 24 8 word ≡ 0xC0) × (bits_at 22 2 word ≡ 0) × (bits_at 16 6 word ≡ 6) }
    ensures { Classifies word level.number result }
{
    if word / 2048 % 4 != 1 {
        return None;
    }
    if word / 32768 % 2 != 0 {
        return None;
    }
    if word / 256 % 2 != 0 {
        return None;
    }
    if level.number < array_level(zeroes_in(word)) {
        return None;
    }
    // The first register's number is a multiple, so the bits below its field are zero.
    if word / 1024 % 2 == 0 {
        if word % 2 != 0 {
            return None;
        }
        return Some(Class::Array(RegisterCount::Two));
    }
    if word % 4 != 0 {
        return None;
    }
    Some(Class::Array(RegisterCount::Four))
}

// The level from which array moves are there.
fn array_level(zeroes: bool) -> u64
    ensures { result ≡ array_level zeroes }
{
    if zeroes { 3 } else { 2 }
}

// A word whose bits 31:24 are not C0: the loads and stores. Of the widest elements are those with bits 24:22 set.
pub(crate) fn classify_access(word: u32, level: Level) -> Option<Class>
    requires { bits_at 24 8 word ≡ 0xC0 → ⊥ }
    ensures { Classifies word level.number result }
{
    if level.number < 1 {
        return None;
    }
    if word / 33554432 % 128 != 0x70 {
        return None;
    }
    if word / 16 % 2 != 0 {
        return None;
    }
    let two = word / 4194304 % 4;
    let wide = word / 16777216 % 2;
    Some(Class::Access(size_in(two, wide)?))
}
