// Which tile of ZA a kernel that holds some may take next, and giving one up (request 9).
#![tactic(auto)]

mod answer;
mod free;
mod giving_up;
mod held;
mod taking;
mod tile;

pub use answer::{Taken, TileRefusal};
pub use giving_up::give_up;
pub use held::Held;
pub use taking::take;
pub use tile::{Tile, is_size};
