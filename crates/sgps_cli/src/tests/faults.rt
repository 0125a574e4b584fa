//! Words that are refused, and sources and sinks that fail.

use crate::ending::Cause;
use crate::program::run;
use sg_io::{MemSink, MemSource};
use std::alloc::Global;
use std::test::Fail;

/// The cause of a run with these words, over a source that has nothing but this standard input, and whether it wrote
/// nothing to `out` and this to `err`.
fn refusal(
    alloc: Global,
    words: &[&str],
    script: &[u8],
    err: &[u8],
) -> Result<Option<Cause>, Fail> {
    let mut source = MemSource::new(alloc, script, 8, &[])?;
    let mut on_out = MemSink::new(alloc, &[])?;
    let mut on_err = MemSink::new(alloc, &[])?;
    let mut texts = Vec::new(alloc);
    for word in words {
        texts.push(String::from_str(alloc, word)?)?;
    }
    let ending = run(alloc, &texts, &mut source, &mut on_out, &mut on_err);
    Ok((on_out.bytes().is_empty() && on_err.bytes() == err).then_some(ending.cause))
}

#[test]
fn words_are_refused(rt: HostRuntime) -> Result<(), Fail> {
    let alloc = rt.alloc();
    for word in ["", "-", "-x", "--budget", "--stats=1", "--cache"] {
        assert!(rt; refusal(alloc, &[word], b"", b"sgps: usage\n")? == Some(Cause::Usage));
    }
    assert!(rt; refusal(alloc, &["f", "g"], b"", b"sgps: usage\n")? == Some(Cause::Usage));
    Ok(())
}

#[test]
fn a_file_that_is_missing_is_a_read_fault(rt: HostRuntime) -> Result<(), Fail> {
    let alloc = rt.alloc();
    assert!(rt; refusal(alloc, &["f"], b"1;", b"sgps: read fault\n")? == Some(Cause::ReadFault));
    Ok(())
}

#[test]
fn a_file_that_is_named_is_read(rt: HostRuntime) -> Result<(), Fail> {
    let alloc = rt.alloc();
    let mut source = MemSource::new(alloc, b"", 8, &[])?;
    source.add_file("f", b"\nPrint(")?;
    let mut out = MemSink::new(alloc, &[])?;
    let mut err = MemSink::new(alloc, &[])?;
    let words = [String::from_str(alloc, "f")?];
    let ending = run(alloc, &words, &mut source, &mut out, &mut err);
    assert_eq!(rt; ending.status, 1);
    assert!(rt; err.bytes() == b"sgps: line 2: Syntax\n".as_slice());
    Ok(())
}

#[test]
fn what_was_read_before_a_fault_is_played(rt: HostRuntime) -> Result<(), Fail> {
    let alloc = rt.alloc();
    let mut source = MemSource::new(alloc, b"Print(1);Print(2);", 10, &[2])?;
    let mut out = MemSink::new(alloc, &[])?;
    let mut err = MemSink::new(alloc, &[])?;
    let ending = run(alloc, &[], &mut source, &mut out, &mut err);
    assert_eq!(rt; ending.status, 3);
    assert!(rt; out.bytes() == b"1".as_slice());
    assert!(rt; err.bytes() == b"sgps: read fault\n".as_slice());
    Ok(())
}

#[test]
fn a_statement_that_a_fault_cuts_is_no_syntax_fault(rt: HostRuntime) -> Result<(), Fail> {
    let alloc = rt.alloc();
    let mut source = MemSource::new(alloc, b"Print(1);", 5, &[2])?;
    let mut out = MemSink::new(alloc, &[])?;
    let mut err = MemSink::new(alloc, &[])?;
    let ending = run(alloc, &[], &mut source, &mut out, &mut err);
    assert_eq!(rt; ending.status, 3);
    assert!(rt; err.bytes() == b"sgps: read fault\n".as_slice());
    Ok(())
}

#[test]
fn a_failed_write_of_a_text_ends_the_run(rt: HostRuntime) -> Result<(), Fail> {
    let alloc = rt.alloc();
    let mut source = MemSource::new(alloc, b"Print(1);Print(2);", 8, &[])?;
    let mut out = MemSink::new(alloc, &[1])?;
    let mut err = MemSink::new(alloc, &[])?;
    let ending = run(alloc, &[], &mut source, &mut out, &mut err);
    assert_eq!(rt; ending.status, 4);
    assert!(rt; out.bytes() == b"1".as_slice());
    assert!(rt; err.bytes().is_empty());
    Ok(())
}

#[test]
fn a_failed_write_of_a_line_ends_the_run(rt: HostRuntime) -> Result<(), Fail> {
    let alloc = rt.alloc();
    let mut source = MemSource::new(alloc, b"Print(", 8, &[])?;
    let mut out = MemSink::new(alloc, &[])?;
    let mut err = MemSink::new(alloc, &[2])?;
    let ending = run(alloc, &[], &mut source, &mut out, &mut err);
    assert_eq!(rt; ending.status, 4);
    assert!(rt; err.bytes() == b"sgps: line 1".as_slice());
    Ok(())
}
