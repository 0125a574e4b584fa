//! Runs that the table of `sgps_scripts` cannot show: words, sources and sinks that fail, and limits.

ghost use Rattle.std.specs.Prelude.{◌<◌};

mod counting;
mod drill;
mod endless;
mod faults;
mod keeping;
mod limits;

use crate::program::run;
use sg_io::{MemSink, MemSource};
use std::alloc::Global;
use std::test::Fail;

/// The status of a run with these words over a standard input that is read in pieces of this size, if it wrote this to
/// `out` and this to `err`.
fn status_with(
    alloc: Global,
    words: &[&str],
    script: &[u8],
    piece: usize,
    out: &[u8],
    err: &[u8],
) -> Result<Option<u8>, Fail>
    requires { 0 < piece }
{
    let mut source = MemSource::new(alloc, script, piece, &[])?;
    let mut on_out = MemSink::new(alloc, &[])?;
    let mut on_err = MemSink::new(alloc, &[])?;
    let mut texts = Vec::new(alloc);
    for word in words {
        texts.push(String::from_str(alloc, word)?)?;
    }
    let ending = run(alloc, &texts, &mut source, &mut on_out, &mut on_err);
    Ok((on_out.bytes() == out && on_err.bytes() == err).then_some(ending.status))
}

/// The same without words.
fn status_of(
    alloc: Global,
    script: &[u8],
    piece: usize,
    out: &[u8],
    err: &[u8],
) -> Result<Option<u8>, Fail>
    requires { 0 < piece }
{
    status_with(alloc, &[], script, piece, out, err)
}

#[test]
fn scripts_in_pieces(rt: HostRuntime) -> Result<(), Fail> {
    let alloc = rt.alloc();
    let refusal = b"sgps: line 3: Syntax\n";
    assert!(rt; status_of(alloc, b"", 1, b"", b"")? == Some(0));
    assert!(rt; status_of(alloc, b"Print(1);", 1, b"1", b"")? == Some(0));
    assert!(rt; status_of(alloc, b"\n\n  Print(", 1, b"", refusal)? == Some(1));
    assert!(rt; status_of(alloc, b"\n\n  Print(", 7, b"", refusal)? == Some(1));
    assert!(rt; status_of(alloc, b"\n\n  Print(", 65_536, b"", refusal)? == Some(1));
    Ok(())
}
