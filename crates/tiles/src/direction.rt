// The two directions of a tile's slices (document 01 §3).
ghost use Rattle.std.specs.Prelude.{◌≡◌, ◌<◌};
ghost use Rattle.tiles.specs.Direction.{direction_number, direction_of};

#[derive(Clone, Copy, Debug, PartialEq, Eq)]
pub enum Direction {
    Horizontal = 0,
    Vertical = 1,
}

impl Direction {
    // V of document 01 §4. A method and no From: its contract also says that the number is small, which sums of callers need.
    pub fn number(self) -> u8
        ensures { (result ≡ direction_number self) × (result < 2) }
    {
        self as u8
    }

    // The direction with this number; Vertical where none has. No TryFrom: it cannot fail, as `direction_of` of specs/Direction.antt
    // cannot, since `unflatten` tells by the numbers of what was read whether they were those of an operation.
    pub fn of_number(number: u32) -> Direction
        ensures { result ≡ direction_of number }
    {
        match number {
            0 => Direction::Horizontal,
            _ => Direction::Vertical,
        }
    }
}
