// What the programs read: a lent buffer, filled from standard input or from any other reader.
#![tactic(auto)]

ghost use Rattle.std.specs.Io.{ReadsAtMost};
ghost use Rattle.std.specs.Io.KnownBytes.{Consumes, IsAtEnd};
ghost use Rattle.std.specs.Prelude.{◌<◌, length, take, IfOk};

use std::io;
use std::io::Read;

// Reads until the buffer is full, the input ends or a read fails, and says how many bytes stand at the start of the buffer. Where it is known what the
// reader has left, those bytes are taken from its front, and nothing is left where the buffer is not full.
pub fn read_full<R: Read>(from: &mut R, buf: &mut [u8]) -> io::Result<usize>
    ensures bound { ReadsAtMost result buf.new }
    ensures bytes { IfOk result (λ n. Consumes (R.remaining from.old) (R.remaining from.new) (take n buf.new)) }
    ensures filled { IfOk result (λ n. n < length buf.new → IsAtEnd (R.remaining from.new)) }
{
    // A read says how many bytes it put, so no `for` can count them.
    let mut done = 0;
    while done < buf.len() {
        let n = from.read(&mut buf[done..])?;
        if n == 0 {
            return Ok(done);
        }
        done += n;
    }
    Ok(done)
}
