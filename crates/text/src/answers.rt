// Lines that a program reads and answers.
ghost use Rattle.std.specs.Prelude.{ℕ, List, ◌≤◌, ◌<◌, ◌^◌, length, IfSome, IfOk, OnOk, OnErr};
ghost use Rattle.text.specs.Answers.{TakesUpTo, TakesOne, TakesAll, TakesSome};

use crate::record::read_full;
use std::io;
use std::io::Read;

// Reads a line and answers it. Returns whether to go on: not at the end of the input, nor after a
// line that has no answer. Fails where a read or a write does.
fn answer_line<const LENGTH: usize, F: Fn(&[u8], &mut [u8]) -> Option<usize>, R: Read>(
    rt: &impl Print,
    input: &mut R,
    put_answer: &F,
) -> io::Result<bool>
    requires callable { (LENGTH < 2 ^ 63) × F.IsAlwaysCallable put_answer.now }
    requires within { (line : _) (answer : _) (r : _) (after : _) → F.post put_answer.now line answer r after → IfSome r (λ n. n ≤ length after.now) }
    ensures ok { IfOk result (TakesOne (F.post put_answer.now) LENGTH (R.remaining input.old) (R.remaining input.new)) }
    ensures err { OnErr result ((bytes : List ℕ) × TakesUpTo LENGTH (R.remaining input.old) bytes (R.remaining input.new)) }
{
    let mut line = [0u8; LENGTH];
    let length = read_full(input, &mut line)?;
    if length == 0 {
        return Ok(false);
    }
    let mut answer = [0u8; 80];
    match put_answer(&line[..length], &mut answer) {
        Some(length) => {
            rt.write_all(&answer[..length])?;
            Ok(true)
        }
        None => {
            rt.write_all(b"bad line\n")?;
            Ok(false)
        }
    }
}

// Answers line after line, each of `LENGTH` bytes. `put_answer` puts the answer to a line at the start of a buffer of 80 bytes, and returns
// its length; a line that has no answer is refused, and ends the program. The turns are as many as no input uses up, since nothing says that
// an input ends. Where the input's bytes are known, the clauses say which of them it lost; of standard input, which the programs hand in, they
// say nothing, and of what is written no clause can.
#[tactic(auto, using(crate::proofs::AnswerLaws::takes_none, crate::proofs::AnswerLaws::takes_more))]
pub fn answer_lines<const LENGTH: usize, F: Fn(&[u8], &mut [u8]) -> Option<usize>, R: Read>(
    rt: &impl Print,
    input: &mut R,
    put_answer: F,
) -> io::Result<()>
    requires callable { (LENGTH < 2 ^ 63) × F.IsAlwaysCallable put_answer }
    requires within { (line : _) (answer : _) (r : _) (after : _) → F.post put_answer line answer r after → IfSome r (λ n. n ≤ length after.now) }
    ensures ok { OnOk result (TakesAll (F.post put_answer) LENGTH (R.remaining input.old) (R.remaining input.new)) }
    ensures err { OnErr result (TakesSome (F.post put_answer) LENGTH (R.remaining input.old) (R.remaining input.new)) }
{
    for _ in 0..u64::MAX {
        if !answer_line::<LENGTH, F, R>(rt, input, &put_answer)? {
            break;
        }
    }
    Ok(())
}
