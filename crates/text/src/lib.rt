// What the programs share: records and lines that are read, digits in a line that was read, a line that is put together to be written, and answers to lines.
#![tactic(auto)]

mod answers;
mod digits;
mod line;
mod record;

pub use answers::answer_lines;
pub use digits::hex_number;
pub use line::{put_byte, put_decimal, put_hex};
pub use record::read_full;
