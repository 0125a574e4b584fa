//! Runs that go on behind refused statements.

use super::status_with;
use crate::ending::Cause;
use crate::program::run;
use sg_io::{MemSink, MemSource};
use std::test::Fail;

#[test]
fn refused_statements_are_passed(rt: HostRuntime) -> Result<(), Fail> {
    let rows: [(&str, &str, &str, u8); 6] = [
        (
            "Print(1+true);\nPrint(2);\ny;\nPrint(3);",
            "23",
            "sgps: line 1: WrongType\nsgps: line 3: UnknownName\n",
            1,
        ),
        ("Print(1);Print(", "1", "sgps: line 1: Syntax\n", 1),
        ("Print(7,\"\\n\");", "7\n", "", 0),
        (
            "if true then x:=5;y;fi;\nPrint(x);",
            "5",
            "sgps: line 1: UnknownName\n",
            1,
        ),
        ("1+;Print(2);", "2", "sgps: line 1: Syntax\n", 1),
        ("y;quit;z;", "", "sgps: line 1: UnknownName\n", 1),
    ];
    for (script, out, err, status) in rows {
        let (script, out, err) = (script.as_bytes(), out.as_bytes(), err.as_bytes());
        let slow = status_with(rt.alloc(), &["--keep-going"], script, 1, out, err)?;
        assert!(rt; slow == Some(status));
        let fast = status_with(rt.alloc(), &["--keep-going"], script, 65_536, out, err)?;
        assert!(rt; fast == Some(status));
    }
    Ok(())
}

#[test]
fn a_statement_that_is_too_long_is_not_passed(rt: HostRuntime) -> Result<(), Fail> {
    let mut script = Vec::from_slice(rt.alloc(), b"nope;Print(1);(")?;
    for _ in 0..70_000 {
        script.push(b' ')?;
    }
    script.extend_from_slice(b");Print(2);")?;
    let lines = b"sgps: line 1: UnknownName\nsgps: line 1: TooLong\n";
    let ended = status_with(rt.alloc(), &["--keep-going"], &script, 4_096, b"1", lines)?;
    assert!(rt; ended == Some(1));
    Ok(())
}

#[test]
fn refusals_are_counted(rt: HostRuntime) -> Result<(), Fail> {
    let mut source = MemSource::new(rt.alloc(), b"y;\n1+1;\nz;\n", 8, &[])?;
    let mut out = MemSink::new(rt.alloc(), &[])?;
    let mut err = MemSink::new(rt.alloc(), &[])?;
    let words = [String::from_str(rt.alloc(), "--keep-going")?];
    let ending = run(rt.alloc(), &words, &mut source, &mut out, &mut err);
    assert!(rt; ending.cause == Cause::Refusals { count: 2, line: 3 });
    Ok(())
}

#[test]
fn a_failed_write_of_a_line_between_texts_ends_the_run(rt: HostRuntime) -> Result<(), Fail> {
    let mut source = MemSource::new(rt.alloc(), b"Print(1);y;Print(2);", 8, &[])?;
    let mut out = MemSink::new(rt.alloc(), &[])?;
    let mut err = MemSink::new(rt.alloc(), &[1])?;
    let words = [String::from_str(rt.alloc(), "--keep-going")?];
    let ending = run(rt.alloc(), &words, &mut source, &mut out, &mut err);
    assert_eq!(rt; ending.status, 4);
    assert!(rt; out.bytes() == b"1".as_slice());
    assert!(rt; err.bytes() == b"sgps: line ".as_slice());
    Ok(())
}
