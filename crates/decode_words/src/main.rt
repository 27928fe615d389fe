// Answers lines of a word and a level, in hexadecimal digits, with what the word decodes to: the
// answer's number and, for an operation, its eleven numbers and the word that they encode to. A
// line that is not of the form is refused, and ends the program.
#![tactic(auto)]

ghost use Rattle.std.specs.Prelude.{◌≡◌, ◌≤◌, length};
ghost use Rattle.text.specs.Line.{Puts};
ghost use Rattle.decode_words.specs.Line.{question_of, numbers_text, operation_text, rest_text, line_of};

use encoding::{DecodeRefusal, Operation};
use std::io;

// The length of a line: eight digits, a space, two digits and a newline.
const LENGTH: usize = 12;

// What a line asks.
#[derive(Clone, Copy, Debug, PartialEq, Eq)]
struct Question {
    word: u32,
    level: u8,
}

// The question in a line with its newline. None where it is not of the form.
fn question_in(line: &[u8]) -> Option<Question>
    ensures { result ≡ question_of line.now }
{
    if line.len() != LENGTH || line[8] != b' ' || line[11] != b'\n' {
        return None;
    }
    let word = text::hex_number(&line[..8])?;
    let level = text::hex_number(&line[9..11])?;
    Some(Question {
        word,
        level: level as u8,
    })
}

// Puts numbers in decimal into a line from a position within it, with a space after each, and
// returns the position after them.
fn put_numbers(line: &mut [u8], at: usize, numbers: &[u8]) -> usize
    requires { at ≤ length line.old }
    ensures { Puts line.old at (numbers_text numbers.now) line.new result }
{
    let mut next = at;
    for number in numbers {
        next = text::put_decimal(line, next, *number as u64);
        next = text::put_byte(line, next, b' ');
    }
    next
}

// Puts an operation after a space: its eleven numbers, and the word that they encode to, zeros where
// there is none. Returns the position after it.
fn put_operation(line: &mut [u8], at: usize, operation: Operation) -> usize
    ensures { Puts line.old at (operation_text operation) line.new result }
{
    let numbers = flat::flatten(operation);
    let mut next = text::put_byte(line, at, b' ');
    next = put_numbers(line, next, &numbers);
    let word = flat::encode_flat(&numbers).unwrap_or(0);
    text::put_hex(line, next, word, 8)
}

// Puts what follows the answer's number: the newline, and before it the operation if there is one.
// Returns the position after it.
fn put_rest(line: &mut [u8], at: usize, decoded: Result<Operation, DecodeRefusal>) -> usize
    ensures { Puts line.old at (rest_text decoded) line.new result }
{
    match decoded {
        Ok(operation) => {
            let next = put_operation(line, at, operation);
            text::put_byte(line, next, b'\n')
        }
        Err(_) => text::put_byte(line, at, b'\n'),
    }
}

// Puts the answer to a question, a line with its newline, at the start of a buffer, and
// returns the line's length.
fn put_answer(line: &mut [u8], question: Question) -> usize
    ensures { Puts line.old 0 (line_of question.word question.level) line.new result }
{
    let Question { word, level } = question;
    let decoded = decoder::decode(word, level as u64);
    let mut next = text::put_hex(line, 0, word, 8);
    next = text::put_byte(line, next, b' ');
    next = text::put_hex(line, next, level as u32, 2);
    next = text::put_byte(line, next, b' ');
    next = text::put_decimal(line, next, settings::answer_number(decoded) as u64);
    put_rest(line, next, decoded)
}

// No answer has more than 67 bytes, so each has room in the buffer of `answer_lines`.
fn main(rt: HostRuntime) -> io::Result<()> {
    text::answer_lines::<LENGTH, _, _>(&rt, &mut rt.reader(), |line, answer| {
        let question = question_in(line)?;
        Some(put_answer(answer, question))
    })
}
