// A line that is put together in a buffer from its start, with the position of what comes next.
// What would go past the buffer's end is dropped.
// No Display: `Puts` says what every call puts, and of a Display the library says so on Ok alone. A line and a position, and no struct: `Puts` is of a buffer of any length.
ghost use Rattle.std.specs.Prelude.{◌≡◌, [], ◌∷◌, min};
ghost use Rattle.text.specs.Digits.{hex_digits, decimal_of};
ghost use Rattle.text.specs.Line.{Puts};

use crate::digits::hex_digits;

// Puts a byte into a line at a position, and returns the position after it: the line's end where
// the byte would be past it.
pub fn put_byte(line: &mut [u8], at: usize, byte: u8) -> usize
    ensures { Puts line.old at (byte ∷ []) line.new result }
{
    if line.len() <= at {
        return line.len();
    }
    line[at] = byte;
    at + 1
}

// Puts bytes into a line from a position on, and returns the position after them: the line's end
// where they reach it.
fn put(line: &mut [u8], at: usize, bytes: &[u8]) -> usize
    ensures { Puts line.old at bytes.now line.new result }
{
    let mut next = at.min(line.len());
    for byte in bytes {
        next = put_byte(line, next, *byte);
    }
    next
}

// Puts the last hexadecimal digits of a number, `count` of them, and eight where count is larger.
// Returns the position after them, as `put_byte` does.
pub fn put_hex(line: &mut [u8], at: usize, number: u32, count: usize) -> usize
    ensures { Puts line.old at (hex_digits (min count 8) number) line.new result }
{
    let digits = hex_digits(number);
    let skipped = 8 - count.min(8);
    put(line, at, &digits[skipped..])
}

// Puts the decimal digits of a number, with no zero in front, and returns the position after them,
// as `put_byte` does. `io::decimal` gives digits and their count, and takes no slice: they are the first of twenty.
pub fn put_decimal(line: &mut [u8], at: usize, number: u64) -> usize
    ensures { Puts line.old at (decimal_of number) line.new result }
{
    let mut digits = [0u8; 20];
    let count = io::decimal(number, &mut digits);
    put(line, at, &digits[..count])
}
