// Counts the words that decode at each level, by decoding every word there is. For each level it
// writes a line: the level, a space, the count.
#![tactic(auto)]

ghost use Rattle.std.specs.Prelude.{◌≡◌, ◌*◌, ◌^◌};
ghost use Rattle.text.specs.Line.{Puts};
ghost use Rattle.count_words.specs.Count.{decode_count, line_of};

use settings::Settings;
use std::io;

// The words that have the same top eight bits.
const BLOCK: u32 = 16777216;

// How many of the words with these top eight bits decode at a level. Words are counted in such
// blocks because a compiled loop over one tests those bits only once.
fn count_block(top: u8, level: u64) -> u64
    ensures { result ≡ decode_count level (top * 2 ^ 24) (2 ^ 24) }
{
    let mut found: u64 = 0;
    for low in 0..BLOCK {
        found += decoder::decode(top as u32 * BLOCK + low, level).is_ok() as u64;
    }
    found
}

// How many of all words decode at a level: none for a level above 3.
fn count(level: u64) -> u64
    ensures { result ≡ decode_count level 0 (2 ^ 32) }
{
    let mut found: u64 = 0;
    for top in 0..256u32 {
        found += count_block(top as u8, level);
    }
    found
}

// Puts the line of a level, with its newline, at the start of a buffer, and returns its length.
fn put_count(line: &mut [u8], level: u64) -> usize
    ensures { Puts line.old 0 (line_of level) line.new result }
{
    let mut next = text::put_decimal(line, 0, level);
    next = text::put_byte(line, next, b' ');
    next = text::put_decimal(line, next, count(level));
    text::put_byte(line, next, b'\n')
}

// Writes the line of a level.
fn write_count(rt: &impl Print, level: u64) -> io::Result<()> {
    let mut line = [0u8; 80];
    let length = put_count(&mut line, level);
    rt.write_all(&line[..length])
}

// A line for each level, the lowest first.
fn main(rt: HostRuntime) -> io::Result<()> {
    for level in 0..=Settings::MAX_LEVEL {
        write_count(&rt, level)?;
    }
    Ok(())
}
