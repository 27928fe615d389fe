// The search for a free tile by halves (document 01 §10, request 9). A part is a sixteenth of ZA, as in specs/Tile.antt.
// `asked` and `parts` are numbers and no ElementSize: parts are sixteenths of ZA, which request 9 counts in numbers, and no sizes of elements.
ghost use Rattle.std.specs.Prelude.{◌≡◌, true, ◌/◌, ◌<◌, ◌≤◌};
ghost use Rattle.planner.specs.Tile.{is_size, is_valid};
ghost use Rattle.planner.specs.Steps.{lowest_in};

use crate::held::is_free;
use crate::tile::Tile;

// The lowest-numbered tile of `asked` parts inside tile `number` of `parts` parts that shares no byte with the held
// ones: the lower of what the two halves have. The parts fall from 16, the whole of ZA, to those asked for.
pub fn lowest_free(held: &[Tile], asked: u64, parts: u64, number: u64) -> Option<u64>
    requires { (is_size asked ≡ true) × (is_size parts ≡ true) × (asked ≤ parts) × (number < 16 / parts) × (is_valid held.now ≡ true) }
    ensures { result ≡ lowest_in held.now (16 / asked) (16 / parts) number }
{
    let bytes = 16 / parts;
    if parts == asked {
        return is_free(held, Tile { bytes, number }).then_some(number);
    }
    let half = parts / 2;
    let a = lowest_free(held, asked, half, number);
    let b = lowest_free(held, asked, half, number + bytes);
    match (a, b) {
        (Some(m), Some(n)) => Some(m.min(n)),
        (Some(m), None) => Some(m),
        (None, found) => found,
    }
}
