//! Drills, whose words call for no source.

use crate::ending::Cause;
use crate::program::run;
use sg_io::{MemSink, MemSource};
use std::alloc::Global;
use std::test::Fail;

const LINES: &[u8] = b"statements 3\nbytes 22\nsum 1085\n";

/// The cause of a run with these words, if it wrote this to `out` and this to `err`. Its source, and the writes to `out`
/// with these numbers, fail.
fn drilled(
    alloc: Global,
    words: &[&str],
    failing: &[u64],
    out: &[u8],
    err: &[u8],
) -> Result<Option<Cause>, Fail> {
    let mut source = MemSource::new(alloc, b"Print(1);", 8, &[0, 1, 2])?;
    let mut on_out = MemSink::new(alloc, failing)?;
    let mut on_err = MemSink::new(alloc, &[])?;
    let mut texts = Vec::new(alloc);
    for word in words {
        texts.push(String::from_str(alloc, word)?)?;
    }
    let ending = run(alloc, &texts, &mut source, &mut on_out, &mut on_err);
    Ok((on_out.bytes() == out && on_err.bytes() == err).then_some(ending.cause))
}

#[test]
fn a_drill_shows_its_three_lines(rt: HostRuntime) -> Result<(), Fail> {
    let alloc = rt.alloc();
    assert!(rt; drilled(alloc, &["--drill", "3"], &[], LINES, b"")? == Some(Cause::Ok));
    assert!(rt;
        drilled(alloc, &["--keep-going", "--drill=3"], &[], LINES, b"")? == Some(Cause::Ok)
    );
    let counted = b"table asked 2 made 2\npseudo asked 1 made 1\npresentation asked 0 made 0\n";
    assert!(rt;
        drilled(alloc, &["--drill", "3", "--stats"], &[], LINES, counted)? == Some(Cause::Ok)
    );
    Ok(())
}

#[test]
fn a_drill_has_no_file(rt: HostRuntime) -> Result<(), Fail> {
    let alloc = rt.alloc();
    let usage = b"sgps: usage\n";
    assert!(rt; drilled(alloc, &["--drill", "3", "f"], &[], b"", usage)? == Some(Cause::Usage));
    assert!(rt; drilled(alloc, &["--drill", "0"], &[], b"", usage)? == Some(Cause::Usage));
    Ok(())
}

#[test]
fn the_lines_of_a_drill_may_fail(rt: HostRuntime) -> Result<(), Fail> {
    let alloc = rt.alloc();
    assert!(rt; drilled(alloc, &["--drill", "3"], &[0], b"", b"")? == Some(Cause::WriteFault));
    Ok(())
}
