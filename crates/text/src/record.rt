// Records of bytes, read from an input.
ghost use Rattle.std.specs.Prelude.{IfOk, OnErr, ℕ, ◌≤◌, ◌<◌, length, take};
ghost use Rattle.std.specs.Io.KnownBytes.{Consumes, IsAtEnd};
ghost use Rattle.io.specs.Counts.{IsPrefixLen};

use std::io;
use std::io::Read;

// Reads until a buffer is full or the input ends, and returns how many bytes it put at the buffer's
// start. Where the input's bytes are known, these are the ones that it lost, and none is left where
// the buffer is not full. After an Err what it lost stands at the buffer's start too.
// A `while`, since std's `read_exact` fails at an end in between and does not say how many bytes came, and a line that is cut short is still to be refused.
#[tactic(auto, using(crate::proofs::RecordLaws::consumes_more))]
pub fn read_full<R: Read>(input: &mut R, buf: &mut [u8]) -> io::Result<usize>
    ensures count { IfOk result (λ n. IsPrefixLen n buf.new) }
    ensures bytes { IfOk result (λ n. Consumes (R.remaining input.old) (R.remaining input.new) (take n buf.new)) }
    ensures end { IfOk result (λ n. n < length buf.new → IsAtEnd (R.remaining input.new)) }
    ensures err { OnErr result ((n : ℕ) × (n ≤ length buf.new) × Consumes (R.remaining input.old) (R.remaining input.new) (take n buf.new)) }
{
    let mut done = 0;
    while done < buf.len() {
        let n = input.read(&mut buf[done..])?;
        if n == 0 {
            break;
        }
        done += n;
    }
    Ok(done)
}
