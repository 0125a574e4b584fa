//! Calls of the system that a signal may interrupt.
ghost use Rattle.std.specs.Io.{ReadsAtMost, WritesAtMost};
ghost use Rattle.std.specs.Io.KnownBytes.{ReadConsumes, WriteAppends};

use std::fs::File;
use std::io::{self, ErrorKind, Read, Write};

/// How often in a row an interrupted call is tried again.
const RETRIES: u32 = 1000;

/// One read, tried again where a signal interrupted it.
pub fn read_retrying<R: Read>(reader: &mut R, buf: &mut [u8]) -> io::Result<usize>
    ensures bound { ReadsAtMost result buf.new }
    ensures bytes { ReadConsumes (R.remaining reader.old) (R.remaining reader.new) result buf.new }
{
    for _ in 0..RETRIES {
        match reader.read(buf) {
            Err(error) if error.kind() == ErrorKind::Interrupted => {}
            answer => return answer,
        }
    }
    reader.read(buf)
}

/// One write, tried again where a signal interrupted it.
pub fn write_retrying<W: Write>(writer: &mut W, piece: &[u8]) -> io::Result<usize>
    ensures bound { WritesAtMost result piece.now }
    ensures bytes { WriteAppends (W.contents writer.old) (W.contents writer.new) result piece.now }
{
    for _ in 0..RETRIES {
        match writer.write(piece) {
            Err(error) if error.kind() == ErrorKind::Interrupted => {}
            answer => return answer,
        }
    }
    writer.write(piece)
}

/// Opens a file to read, tried again where a signal interrupted it.
pub fn open_retrying(rt: &HostRuntime, path: &str) -> io::Result<File> {
    for _ in 0..RETRIES {
        match File::open(rt, path) {
            Err(error) if error.kind() == ErrorKind::Interrupted => {}
            answer => return answer,
        }
    }
    File::open(rt, path)
}
