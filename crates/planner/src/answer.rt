// What taking a tile and giving one up answer.
ghost use Rattle.std.specs.Prelude.{◌≡◌};
ghost use Rattle.planner.specs.Held.{refusal_number};

use crate::held::Held;

// Why no tile is taken, or none given up. The held tiles then stay as they were.
#[derive(Clone, Copy, Debug, PartialEq, Eq)]
pub enum TileRefusal {
    BadSize,
    BadHeld,
    NoFreeTile,
}

// A tile that was taken, and the held tiles with it. No equality, since `Held` has none.
#[derive(Clone, Copy)]
pub struct Taken {
    pub number: u64,
    pub held: Held,
}

// The refusal's number of document 01 §6 and request 9.
impl From<TileRefusal> for u32 {
    ghost from_gives = { λ refusal number. number ≡ refusal_number refusal };

    fn from(refusal: TileRefusal) -> u32 {
        match refusal {
            TileRefusal::BadSize => 8,
            TileRefusal::BadHeld => 16,
            TileRefusal::NoFreeTile => 13,
        }
    }
}
