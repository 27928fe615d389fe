// Giving up a tile.
ghost use Rattle.planner.specs.Held.{GivesUpOne};

use crate::answer::TileRefusal;
use crate::held::Held;
use crate::tile::Tile;

// The held tiles but one, which must be held.
pub fn give_up(held: Held, x: Tile) -> Result<Held, TileRefusal>
    ensures { GivesUpOne held x result }
{
    if !held.is_valid() {
        return Err(TileRefusal::BadHeld);
    }
    let mut kept = Held::NONE;
    for y in &held.tiles[..held.count] {
        if *y != x {
            kept = kept.join(*y);
        }
    }
    if kept.count == held.count {
        return Err(TileRefusal::BadHeld);
    }
    Ok(kept)
}
