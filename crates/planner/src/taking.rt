// Taking one more tile.
ghost use Rattle.planner.specs.Held.{TakesOne};

use crate::answer::{Taken, TileRefusal};
use crate::free::lowest_free;
use crate::held::Held;
use crate::tile::{Tile, is_size};

// The lowest-numbered tile with elements of so many bytes that shares no byte with a held one; it joins them.
pub fn take(held: Held, bytes: u64) -> Result<Taken, TileRefusal>
    ensures { TakesOne held bytes result }
{
    if !is_size(bytes) {
        return Err(TileRefusal::BadSize);
    }
    if !held.is_valid() {
        return Err(TileRefusal::BadHeld);
    }
    let tiles = &held.tiles[..held.count];
    let number = lowest_free(tiles, 16 / bytes, 16, 0).ok_or(TileRefusal::NoFreeTile)?;
    let held = held.join(Tile { bytes, number });
    Ok(Taken { number, held })
}
