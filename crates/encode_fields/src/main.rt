// Answers lines of eleven numbers, in pairs of hexadecimal digits, with the answer's number and the
// word that they encode to. A line that is not of the form is refused, and ends the program.
#![tactic(auto)]

ghost use Rattle.std.specs.Prelude.{◌≡◌};
ghost use Rattle.text.specs.Line.{Puts};
ghost use Rattle.encode_fields.specs.Line.{question_of, numbers_asked, question_text, encoded_text, line_of};

use encoding::OutOfRange;
use std::io;

// The length of a line: 22 digits and a newline.
const LENGTH: usize = 23;

// What a line asks: the 22 digits as the numbers that the first eight, the next eight and the last
// six are.
#[derive(Clone, Copy, Debug, PartialEq, Eq)]
struct Question {
    first: u32,
    second: u32,
    third: u32,
}

// The question in a line with its newline. None where it is not of the form.
fn question_in(line: &[u8]) -> Option<Question>
    ensures { result ≡ question_of line.now }
{
    if line.len() != LENGTH || line[22] != b'\n' {
        return None;
    }
    let first = text::hex_number(&line[..8])?;
    let second = text::hex_number(&line[8..16])?;
    let third = text::hex_number(&line[16..22])?;
    Some(Question {
        first,
        second,
        third,
    })
}

impl Question {
    // The eleven numbers: four bytes, four and three.
    fn numbers(self) -> [u8; 11]
        ensures { result ≡ numbers_asked self.first self.second self.third }
    {
        let [a, b, c, d] = self.first.to_be_bytes();
        let [e, f, g, h] = self.second.to_be_bytes();
        let [_, i, j, k] = self.third.to_be_bytes();
        [a, b, c, d, e, f, g, h, i, j, k]
    }
}

// Puts the 22 digits of a question at the start of a line, and returns the position after them.
fn put_question(line: &mut [u8], question: Question) -> usize
    ensures { Puts line.old 0 (question_text question.first question.second question.third) line.new result }
{
    let mut next = text::put_hex(line, 0, question.first, 8);
    next = text::put_hex(line, next, question.second, 8);
    text::put_hex(line, next, question.third, 6)
}

// Puts an answer's number and its word, zeros where there is none, each after a space, and the
// newline. Returns the position after them.
fn put_encoded(line: &mut [u8], at: usize, encoded: Result<u32, OutOfRange>) -> usize
    ensures { Puts line.old at (encoded_text encoded) line.new result }
{
    let mut next = text::put_byte(line, at, b' ');
    next = text::put_decimal(line, next, settings::answer_number(encoded) as u64);
    next = text::put_byte(line, next, b' ');
    next = text::put_hex(line, next, encoded.unwrap_or(0), 8);
    text::put_byte(line, next, b'\n')
}

// Puts the answer to a question, a line with its newline, at the start of a buffer, and returns the
// line's length.
fn put_answer(line: &mut [u8], question: Question) -> usize
    ensures { Puts line.old 0 (line_of question.first question.second question.third) line.new result }
{
    let numbers = question.numbers();
    let next = put_question(line, question);
    put_encoded(line, next, flat::encode_flat(&numbers))
}

// An answer has 34 bytes, so it has room in the buffer of `answer_lines`.
fn main(rt: HostRuntime) -> io::Result<()> {
    text::answer_lines::<LENGTH, _, _>(&rt, &mut rt.reader(), |line, answer| {
        let question = question_in(line)?;
        Some(put_answer(answer, question))
    })
}
