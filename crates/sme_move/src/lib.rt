// What hosts link, but for listings, which are in sme_listing: functions over numbers and slices, which only call the crates below. Answers are
// numbers, settings and results arrays with a count, since C gets and gives them so, and a later one changes no function here (docs/DECISIONS.md).
#![tactic(auto)]

ghost use Rattle.std.specs.Prelude.{◌≡◌};
ghost use Rattle.settings.specs.Settings.{check_number};
ghost use Rattle.settings.specs.Lent.{settings_in};
ghost use Rattle.semantics.specs.State.{state_of};
ghost use Rattle.planner.specs.Tile.{tile_of};
ghost use Rattle.lent_tiles.specs.Lent.{TakesTile, GivesUpTile};
ghost use Rattle.sme_move.specs.Export.{version, listing_version, Exports, DecodeExports, EncodeExports, LengthExports};

use settings::{Settings, answer_number, put_result};

// The version of what is exported. An archive has such a function for its own version and for each before it whose hosts it serves, so
// that a host of a later version does not link with it. The names are the C interface, so each stands here.
#[unsafe(no_mangle)]
pub extern "C" fn sme_version_0_5() -> u32
    ensures { result ≡ version }
{
    8
}

#[unsafe(no_mangle)]
pub extern "C" fn sme_version_0_6() -> u32
    ensures { result ≡ version }
{
    8
}

#[unsafe(no_mangle)]
pub extern "C" fn sme_version_0_7() -> u32
    ensures { result ≡ version }
{
    8
}

#[unsafe(no_mangle)]
pub extern "C" fn sme_version_0_8() -> u32
    ensures { result ≡ version }
{
    8
}

// That of the functions for listings, which sme_listing has (docs/PORT.md).
#[unsafe(no_mangle)]
pub extern "C" fn sme_version_0_9() -> u32
    ensures { result ≡ listing_version }
{
    9
}

// Executes one instruction word on the buffers that are lent, and returns the answer's number
// (document 01 §6). The results are the address and the element that answer 7 carries, zeros with every other (request 6); each is
// written where `results` has a place for it. A refusal changes no buffer.
#[unsafe(no_mangle)]
pub extern "C" fn sme_execute_word(
    given: &[u64],
    x: &[u64],
    z: &mut [u8],
    p: &[u8],
    za: &mut [u8],
    memory: &mut [u8],
    results: &mut [u64],
    word: u32,
) -> u32
    ensures { Exports (settings_in given.now) word (state_of x.now z.old p.now za.old memory.old) results.old result results.new (state_of x.now z.new p.now za.new memory.new) }
{
    let answer = execute::execute(Settings::from(given), word, x, z, p, za, memory);
    // Both are known before the tests, which then cost a jump each and not one on each way out.
    let number = answer_number(answer);
    let fault = semantics::answer_fault(answer);
    put_result(results, 0, fault.address);
    put_result(results, 1, fault.element);
    number
}

// Decodes a word at a feature level, and returns the answer's number: 0 with the operation's eleven
// numbers in `fields`, 1 for a level above 3, 3 for a word that is no instruction of the level. A
// refusal leaves `fields` as it was.
#[unsafe(no_mangle)]
pub extern "C" fn sme_decode(word: u32, level: u64, fields: &mut [u8; 11]) -> u32
    ensures { DecodeExports word level fields.old result fields.new }
{
    match decoder::decode(word, level) {
        Ok(operation) => {
            *fields = flat::flatten(operation);
            0
        }
        Err(refusal) => u32::from(refusal),
    }
}

// Encodes the operation that has these eleven numbers, and returns the answer's number: 0 with its word
// in `word`, or 8 with 0 there where no word has such an operation.
#[unsafe(no_mangle)]
pub extern "C" fn sme_encode(fields: &[u8; 11], word: &mut u32) -> u32
    ensures { EncodeExports fields.now result word.new }
{
    let encoded = flat::encode_flat(fields);
    *word = encoded.unwrap_or(0);
    answer_number(encoded)
}

// 0 where a machine may have these settings, else 1.
#[unsafe(no_mangle)]
pub extern "C" fn sme_check(given: &[u64]) -> u32
    ensures { result ≡ check_number (settings_in given.now) }
{
    answer_number(Settings::from(given).check())
}

// The lengths that these settings fix, in the order X (in numbers), Z, P, ZA (in bytes), and 0; or 1 where a vector length is none,
// or the largest is below the other, with `lengths` as it was.
#[unsafe(no_mangle)]
pub extern "C" fn sme_measure(given: &[u64], lengths: &mut [u64; 4]) -> u32
    ensures { LengthExports (settings_in given.now) lengths.old result lengths.new }
{
    answer_number(settings::measure(Settings::from(given), lengths))
}

// Takes the lowest-numbered free tile with elements of so many bytes, and returns the answer's number: 0, with the
// tile's number in `tile` and the tile as the last of the held ones; or 8, 16 or 13 (request 9), with 0 in `tile`, and
// `tiles` and `count` as they were.
#[unsafe(no_mangle)]
pub extern "C" fn sme_take_tile(
    tiles: &mut [u64],
    count: &mut usize,
    element_bytes: u64,
    tile: &mut u64,
) -> u32
    ensures { TakesTile tiles.old count.old element_bytes result tile.new tiles.new count.new }
{
    let taken = lent_tiles::take_tile(tiles, count, element_bytes);
    *tile = taken.unwrap_or(0);
    answer_number(taken)
}

// Gives up a held tile, and returns the answer's number: 0, with that tile no longer among the held ones; or 16
// (request 9), with `tiles` and `count` as they were.
#[unsafe(no_mangle)]
pub extern "C" fn sme_give_up_tile(
    tiles: &mut [u64],
    count: &mut usize,
    element_bytes: u64,
    tile: u64,
) -> u32
    ensures { GivesUpTile tiles.old count.old (tile_of element_bytes tile) result tiles.new count.new }
{
    answer_number(lent_tiles::give_up_tile(tiles, count, element_bytes, tile))
}
