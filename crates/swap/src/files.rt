// Whole files in, a whole text out, over calls that a signal may interrupt.
ghost use Rattle.std.specs.Prelude.{◌<◌, ◌≤◌, length, take, IsOk, IfOk, OnOk, OnErr};
ghost use Rattle.std.specs.Io.{ReadsAtMost, WritesAtMost};
ghost use Rattle.std.specs.Io.KnownBytes.{Appends, Consumes, IsAtEnd, ReadConsumes, WriteAppends};
ghost use Rattle.swap.specs.inner.Reading.{ConsumesFront};
ghost use Rattle.swap.specs.inner.Retrying.{Retried};

use std::io::{ErrorKind, Read, Write};
use std::rt::Files;
use std::{fs, io};

// How often an interrupted call is tried before it counts as failed: every loop must end.
const TRIES: usize = 1000;

// The first bytes of the file, as many as the buffer has room for. Only a missing file reads as empty.
pub(crate) fn load<'a>(rt: &impl Files, path: &str, buffer: &'a mut [u8]) -> io::Result<&'a [u8]>
    ensures { IfOk result (λ read. length read.now ≤ length buffer.entry.now) }
{
    let length = match open(rt, path) {
        Ok(mut file) => read_whole(&mut file, buffer)?,
        Err(error) if error.kind() == ErrorKind::NotFound => 0,
        Err(error) => return Err(error),
    };
    Ok(&buffer[..length])
}

// System and path side by side, in `load`, here and in `reach`, as in std's own `fs::open`.
fn open<R: Files>(rt: &R, path: &str) -> io::Result<R::File> {
    reach(rt, path)?;
    fs::open(rt, path)
}

// Where a signal interrupts the opening of a file, std tries it again by itself, as often as it takes; that of a folder it tries once. So the path is opened as a folder first:
// that fails where it names a file, and tells all the same whether a signal interrupts. Only that counts here.
fn reach(rt: &impl Files, path: &str) -> io::Result<()> {
    match retried(&mut || rt.open_dir(path)) {
        Err(error) if error.kind() == ErrorKind::Interrupted => Err(error),
        _ => Ok(()),
    }
}

// What the call gives; where a signal interrupts it, it is tried again.
fn retried<T, F: FnMut() -> io::Result<T>>(call: &mut F) -> io::Result<T>
    requires { F.IsAlwaysCallable call.old }
    ensures { Retried F.step call.old result call.new }
{
    for _ in 1..TRIES {
        match call() {
            Err(error) if error.kind() == ErrorKind::Interrupted => {}
            given => return given,
        }
    }
    call()
}

// Reads until the buffer is full or the file ends, and tells how many bytes it put at the front.
fn read_whole<R: Read>(file: &mut R, buffer: &mut [u8]) -> io::Result<usize>
    ensures length { ReadsAtMost result buffer.new }
    ensures bytes { IfOk result (λ n. Consumes (R.remaining file.old) (R.remaining file.new) (take n buffer.new)) }
    ensures whole { IfOk result (λ n. n < length buffer.new → IsAtEnd (R.remaining file.new)) }
    ensures part { OnErr result (ConsumesFront (R.remaining file.old) (R.remaining file.new) buffer.new) }
{
    // By hand: std's `read_exact` fails where the file ends early, `read_to_end` asks for a Vec, and `io::copy` tries an interrupted call again nearly without end.
    // Not one loop with `write_whole`: nothing read is the end, nothing written a failure.
    let mut done = 0;
    while done < buffer.len() {
        match read(file, &mut buffer[done..])? {
            0 => break,
            more => done += more,
        }
    }
    Ok(done)
}

// How many bytes were read, as std's own `read` tells it; `load` makes a part of the buffer of it.
fn read<R: Read>(file: &mut R, buffer: &mut [u8]) -> io::Result<usize>
    ensures bound { ReadsAtMost result buffer.new }
    ensures bytes { ReadConsumes (R.remaining file.old) (R.remaining file.new) result buffer.new }
{
    retried(&mut || file.read(buffer))
}

// Writes all of the text, or tells why not.
pub(crate) fn write_whole<W: Write>(to: &mut W, text: &[u8]) -> io::Result<()>
    ensures { OnOk result (Appends (W.contents to.old) (W.contents to.new) text.now) }
{
    // By hand: std's `write_all` tries an interrupted call again nearly without end.
    let mut done = 0;
    while done < text.len() {
        let more = write(to, &text[done..])?;
        if more == 0 {
            return Err(io::Error::from(ErrorKind::WriteZero));
        }
        done += more;
    }
    Ok(())
}

fn write<W: Write>(to: &mut W, text: &[u8]) -> io::Result<usize>
    ensures bound { WritesAtMost result text.now }
    ensures bytes { WriteAppends (W.contents to.old) (W.contents to.new) result text.now }
{
    retried(&mut || to.write(text))
}
