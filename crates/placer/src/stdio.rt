// Reads and writes of a stream. A call that a signal interrupted is tried again; one that fails ends the run.
// A proved loop has to end, and nothing says that signals do, or the input: such loops count up to a number that no run uses up.

ghost use Rattle.std.specs.Prelude.{◌≤◌, length, IfOk};
ghost use Rattle.placer.specs.Parts.{AtMost};
ghost use Rattle.placer.specs.Streams.{Brought, Put, Sent};

use super::failure::Failure;
use std::io::{Error, ErrorKind, Read, Write};

// One read, which waits for no more than the first bytes: how many it brought, none where a signal came first, or `None` at the end of
// input.
pub fn read_some<R: Read>(reader: &mut R, bytes: &mut [u8]) -> Result<Option<usize>, Failure>
    ensures came { IfOk result (AtMost (length bytes.old)) }
    ensures brought { Brought (R.remaining reader.old) (R.remaining reader.new) bytes.new result }
{
    match reader.read(bytes) {
        Ok(0) => Ok(None),
        Ok(came) => Ok(Some(came)),
        Err(error) if error.kind() == ErrorKind::Interrupted => Ok(Some(0)),
        Err(error) => Err(Failure::Input(error)),
    }
}

// One write, and how many bytes it took, none where a signal came first. A write that takes none without one has failed.
fn write_some<W: Write>(writer: &mut W, bytes: &[u8]) -> Result<usize, Failure>
    ensures most { IfOk result (λ n. n ≤ length bytes.now) }
    ensures put { Put (W.contents writer.old) (W.contents writer.new) bytes.now result }
{
    match writer.write(bytes) {
        Ok(0) => Err(Failure::Output(Error::from(ErrorKind::WriteZero))),
        Ok(put) => Ok(put),
        Err(error) if error.kind() == ErrorKind::Interrupted => Ok(0),
        Err(error) => Err(Failure::Output(error)),
    }
}

// Writes the bytes, all of them unless a write fails. The library's own method says nothing of the bytes given where it fails; `Sent` does.
pub fn write_all<W: Write>(writer: &mut W, bytes: &[u8]) -> Result<(), Failure>
    ensures { Sent (W.contents writer.old) (W.contents writer.new) bytes.now result }
{
    let mut done = 0;
    for _ in 0..u64::MAX {
        if done >= bytes.len() {
            return writer.flush().map_err(Failure::Output);
        }
        done += write_some(writer, &bytes[done..])?;
    }
    Err(Failure::Output(Error::from(ErrorKind::TimedOut)))
}
