// A buffer filled from a reader.
ghost use Rattle.std.specs.Prelude.{ℕ, ◌≡◌, ◌≤◌, ◌<◌, length, take, IfOk, OnErr};
ghost use Rattle.std.specs.Io.KnownBytes.{Consumes, IsAtEnd};

use std::io;
use std::io::Read;

// Reads until the buffer is full or the input ends, and answers how many bytes it put at the start.
// The only error is that of a read; what was read before it stands at the start too.
#[tactic(auto, using(crate::proofs::Filled::reading))]
pub fn read_full<R: Read>(input: &mut R, buffer: &mut [u8]) -> io::Result<usize>
    ensures bound { IfOk result (λ n. n ≤ length buffer.new) }
    ensures bytes { IfOk result (λ n. Consumes (R.remaining input.old) (R.remaining input.new) (take n buffer.new)) }
    ensures end { IfOk result (λ n. n < length buffer.new → IsAtEnd (R.remaining input.new)) }
    ensures err { OnErr result ((n : ℕ) × (n ≤ length buffer.new) × Consumes (R.remaining input.old) (R.remaining input.new) (take n buffer.new)) }
    ensures kept { length buffer.new ≡ length buffer.old }
{
    let mut done = 0;
    // Each read says how far it comes, so there is no count to go through.
    while done < buffer.len() {
        let n = input.read(&mut buffer[done..])?;
        if n == 0 {
            break;
        }
        done += n;
    }
    Ok(done)
}
