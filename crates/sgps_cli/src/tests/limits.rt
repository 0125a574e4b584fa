//! Scripts at the limit of a statement and just past it.

use super::status_of;
use std::alloc::Global;
use std::test::Fail;

/// A call of `Print` whose argument has so many blanks behind it.
fn printed(alloc: Global, blanks: usize) -> Result<Vec<u8>, Fail> {
    let mut script = Vec::from_slice(alloc, b"Print(1")?;
    for _ in 0..blanks {
        script.push(b' ')?;
    }
    script.extend_from_slice(b");")?;
    Ok(script)
}

#[test]
fn a_statement_may_be_as_long_as_its_limit(rt: HostRuntime) -> Result<(), Fail> {
    let alloc = rt.alloc();
    let fits = printed(alloc, 65_527)?;
    assert!(rt; status_of(alloc, &fits, 4_096, b"1", b"")? == Some(0));
    let long = printed(alloc, 65_528)?;
    assert!(rt; status_of(alloc, &long, 4_096, b"", b"sgps: line 1: TooLong\n")? == Some(1));
    Ok(())
}
