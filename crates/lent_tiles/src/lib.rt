// Held tiles as hosts lend them: an array of numbers, two for each tile, the bytes of its elements and its number.
// Array and count stay two parameters, and a tile two numbers: so C hands them to `sme_take_tile` and `sme_give_up_tile`.
#![tactic(auto)]

ghost use Rattle.std.specs.Prelude.{◌≡◌, ◌*◌, ◌<◌, ◌≤◌, length};
ghost use Rattle.planner.specs.Tile.{tile_of};
ghost use Rattle.lent_tiles.specs.Lent.{tile_at_place, held_in, take_in, held_out, TakesLent, GivesUpLent};

use planner::{Held, Taken, Tile, TileRefusal};

// The tile at a place of the array; outside it the tile of 0 bytes, which does not exist.
fn tile_in(tiles: &[u64], i: usize) -> Tile
    requires { i < 16 }
    ensures { result ≡ tile_at_place tiles.now i }
{
    if 2 * i + 1 < tiles.len() {
        Tile {
            bytes: tiles[2 * i],
            number: tiles[2 * i + 1],
        }
    } else {
        Tile::NONE
    }
}

// The tiles at the array's first sixteen places, of which `count` are held.
fn held_in(tiles: &[u64], count: usize) -> Held
    ensures { result ≡ held_in tiles.now count }
{
    Held {
        tiles: std::array::from_fn(|i| tile_in(tiles, i)),
        count,
    }
}

// Taking a tile, which is refused where the array has no place for it. For a size that is none no held tile is read.
fn take_in(tiles: &[u64], count: usize, bytes: u64) -> Result<Taken, TileRefusal>
    ensures { result ≡ take_in tiles.now count bytes }
{
    if !planner::is_size(bytes) {
        return Err(TileRefusal::BadSize);
    }
    let taken = planner::take(held_in(tiles, count), bytes)?;
    if tiles.len() / 2 < taken.held.count {
        return Err(TileRefusal::BadHeld);
    }
    Ok(taken)
}

// Writes held tiles to the array's first places, and how many there are; what is after them stays.
// No zip with `chunks_exact_mut(2)`: `returns` did not close, since the array is then known only by what each lent chunk is given back as.
fn write_held(tiles: &mut [u64], count: &mut usize, held: Held)
    requires { (held.count ≤ 16) × (2 * held.count ≤ length tiles.old) }
    ensures { (tiles.new ≡ held_out tiles.old held) × (count.new ≡ held.count) }
{
    for (i, x) in held.tiles[..held.count].iter().enumerate() {
        tiles[2 * i] = x.bytes;
        tiles[2 * i + 1] = x.number;
    }
    *count = held.count;
}

// Takes the lowest-numbered free tile with elements of so many bytes, and returns its number, with the tile as the last
// of the held ones; or a refusal, with `tiles` and `count` as they were: BadSize, BadHeld or NoFreeTile. BadHeld also
// where the array is shorter than its count, or has no place for the tile.
pub fn take_tile(tiles: &mut [u64], count: &mut usize, bytes: u64) -> Result<u64, TileRefusal>
    ensures { TakesLent tiles.old count.old bytes result tiles.new count.new }
{
    let taken = take_in(tiles, *count, bytes)?;
    write_held(tiles, count, taken.held);
    Ok(taken.number)
}

// Gives up a held tile, which is then no longer among the held ones; or BadHeld, with `tiles` and `count` as they were.
pub fn give_up_tile(
    tiles: &mut [u64],
    count: &mut usize,
    bytes: u64,
    number: u64,
) -> Result<(), TileRefusal>
    ensures { GivesUpLent tiles.old count.old (tile_of bytes number) result tiles.new count.new }
{
    let left = planner::give_up(held_in(tiles, *count), Tile { bytes, number })?;
    write_held(tiles, count, left);
    Ok(())
}
