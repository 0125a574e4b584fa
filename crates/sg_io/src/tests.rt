ghost use Rattle.std.specs.Prelude.{◌≡◌, true};
ghost use Rattle.sg_io.specs.MemSource.{is_begun};

use crate::retry::{read_retrying, write_retrying};
use crate::{Failed, MemSink, MemSource, Sink, SinkFault, Source, StdSink, StdSource, write_whole};
use std::alloc::Global;
use std::io::{self, ErrorKind, Read, Write};
use std::test::Fail;

/// All that is left of a source, of at most 64 bytes.
fn contents(alloc: Global, source: &mut MemSource) -> Result<Vec<u8>, Fail>
    requires { is_begun source.old ≡ true }
{
    let mut all = Vec::new(alloc);
    let mut buf = [0u8; 4];
    for _ in 0..64 {
        let count = source.read(&mut buf)?;
        if count == 0 {
            break;
        }
        all.extend_from_slice(&buf[..count])?;
    }
    Ok(all)
}

#[test]
fn any_piece_gives_the_same(rt: HostRuntime) -> Result<(), Fail> {
    for piece in [1, 2, 3, 100] {
        let mut source = MemSource::new(rt.alloc(), b"standard", piece, &[])?;
        source.begin(None)?;
        assert_eq!(rt;
            contents(rt.alloc(), &mut source)?.as_slice(),
            b"standard".as_slice()
        );
    }
    Ok(())
}

#[test]
fn first_file_of_a_name_counts(rt: HostRuntime) -> Result<(), Fail> {
    let mut source = MemSource::new(rt.alloc(), b"standard", 3, &[])?;
    source.add_file("f", b"first")?;
    source.add_file("f", b"second")?;
    let missing = source.begin(Some("g"));
    assert!(rt; missing.is_err());
    source.begin(Some("f"))?;
    assert_eq!(rt;
        contents(rt.alloc(), &mut source)?.as_slice(),
        b"first".as_slice()
    );
    Ok(())
}

#[test]
fn listed_calls_fail(rt: HostRuntime) -> Result<(), Fail> {
    let mut source = MemSource::new(rt.alloc(), b"abc", 2, &[0, 3])?;
    let mut buf = [0u8; 8];
    let begun = source.begin(None);
    assert!(rt; begun.is_err());
    source.begin(None)?;
    assert_eq!(rt; source.read(&mut buf), Ok(2));
    assert_eq!(rt; source.read(&mut buf), Err(Failed));
    assert_eq!(rt; source.read(&mut buf), Ok(1));
    assert_eq!(rt; buf[0], b'c');
    assert_eq!(rt; source.read(&mut buf), Ok(0));
    Ok(())
}

#[test]
fn listed_writes_fail(rt: HostRuntime) -> Result<(), Fail> {
    let mut sink = MemSink::new(rt.alloc(), &[2])?;
    write_whole(&mut sink, b"one ")?;
    assert_eq!(rt; sink.write(b"two"), Ok(3));
    assert_eq!(rt; write_whole(&mut sink, b" three"), Err(SinkFault::Failed));
    assert_eq!(rt; sink.bytes(), b"one two".as_slice());
    sink.clear();
    write_whole(&mut sink, b"four")?;
    assert_eq!(rt; sink.bytes(), b"four".as_slice());
    Ok(())
}

#[test]
fn standard_streams_take_bytes(rt: HostRuntime) -> Result<(), Fail> {
    write_whole(&mut StdSink::out(&rt), b"to standard output\n")?;
    write_whole(&mut StdSink::err(&rt), b"to standard error\n")?;
    Ok(())
}

#[test]
fn real_files_are_read(rt: HostRuntime) -> Result<(), Fail> {
    let mut buf = [1u8; 4];
    let mut source = StdSource::new(&rt);
    let missing = source.begin(Some("no/such/file"));
    assert!(rt; missing.is_err());
    source.begin(Some("/dev/zero"))?;
    assert_eq!(rt; source.read(&mut buf), Ok(4));
    assert_eq!(rt; buf, [0; 4]);
    let mut empty = StdSource::new(&rt);
    empty.begin(Some("/dev/null"))?;
    assert_eq!(rt; empty.read(&mut buf), Ok(0));
    let mut folder = StdSource::new(&rt);
    folder.begin(Some("/"))?;
    assert_eq!(rt; folder.read(&mut buf), Err(Failed));
    Ok(())
}

/// A stream whose next calls are interrupted, as often as the number says.
#[derive(Drop)]
struct Interrupted(u32);

impl Interrupted {
    fn next_call(&mut self) -> io::Result<usize> {
        if self.0 == 0 {
            return Ok(1);
        }
        self.0 -= 1;
        Err(io::Error::from(ErrorKind::Interrupted))
    }
}

impl Read for Interrupted {
    fn read(&mut self, buf: &mut [u8]) -> io::Result<usize> {
        Ok(self.next_call()?.min(buf.len()))
    }
}

impl Write for Interrupted {
    fn write(&mut self, buf: &[u8]) -> io::Result<usize> {
        Ok(self.next_call()?.min(buf.len()))
    }

    fn flush(&mut self) -> io::Result<()> {
        Ok(())
    }
}

#[test]
fn interrupted_calls_are_tried_again(rt: HostRuntime) {
    let mut buf = [0u8; 1];
    assert!(rt; matches!(read_retrying(&mut Interrupted(1000), &mut buf), Ok(1)));
    assert!(rt; read_retrying(&mut Interrupted(1001), &mut buf).is_err());
    assert!(rt; matches!(write_retrying(&mut Interrupted(1000), b"x"), Ok(1)));
    assert!(rt; write_retrying(&mut Interrupted(1001), b"x").is_err());
}
