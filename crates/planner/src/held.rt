// The tiles that a kernel holds.
ghost use Rattle.std.specs.Prelude.{◌≡◌, true, ◌<◌, All};
ghost use Rattle.planner.specs.Tile.{is_tile, is_free, is_valid};
ghost use Rattle.planner.specs.Held.{valid_held, joined};

use crate::tile::{Tile, is_shared, is_tile};

// The first `count` of sixteen tiles: no more can be held, since no more can share no byte.
// An array with a count, and no `ArrayVec`: `counts`, `kept_count` and `many` (specs/Examples.antt here, specs/Claims.antt of lent_tiles) are of counts above sixteen.
// No equality: what stands after the held tiles does not count.
#[derive(Clone, Copy)]
pub struct Held {
    pub tiles: [Tile; 16],
    pub count: usize,
}

impl Held {
    // No tile is held.
    pub(crate) const NONE: Held = Held {
        tiles: [Tile::NONE; 16],
        count: 0,
    };

    // Whether every held tile exists and no two share a byte.
    pub(crate) fn is_valid(&self) -> bool
        ensures { result ≡ valid_held self.now }
    {
        self.count <= 16 && is_valid(&self.tiles[..self.count])
    }

    // One tile more, after the others.
    pub(crate) fn join(self, x: Tile) -> Held
        requires { self.count < 16 }
        ensures { result ≡ joined self x }
    {
        let mut next = self;
        next.tiles[self.count] = x;
        next.count += 1;
        next
    }
}

// Whether a tile shares no byte with others.
pub fn is_free(others: &[Tile], x: Tile) -> bool
    requires { (is_tile x ≡ true) × All (λ y. is_tile y ≡ true) others.now }
    ensures { result ≡ is_free others.now x }
{
    !others.iter().any(|y| is_shared(x, *y))
}

// Whether tiles exist and no two share a byte: from the last one back, each with those after it.
fn is_valid(tiles: &[Tile]) -> bool
    ensures { result ≡ is_valid tiles.now }
{
    for i in (0..tiles.len()).rev() {
        let x = tiles[i];
        if !is_tile(x) || !is_free(&tiles[i + 1..], x) {
            return false;
        }
    }
    true
}
