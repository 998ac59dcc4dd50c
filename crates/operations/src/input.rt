// What stands on standard input.
ghost use Rattle.std.specs.Io.{ReadsAtMost};

use std::io;
use std::io::Read;

// Reads until the buffer is full or the input ends, and tells how many bytes it put at the front. std's `read_exact` fails where the
// input ends early, and there this program goes on with zeros.
// `read_to_end` asks for a Vec, and `io::copy` promises no count. The loop is that of swap's `read_whole` without its tries; nothing can rest on a program.
pub(crate) fn read_full(input: &mut impl Read, buffer: &mut [u8]) -> io::Result<usize>
    ensures { ReadsAtMost result buffer.new }
{
    let mut done = 0;
    while done < buffer.len() {
        let more = input.read(&mut buffer[done..])?;
        if more == 0 {
            break;
        }
        done += more;
    }
    Ok(done)
}
