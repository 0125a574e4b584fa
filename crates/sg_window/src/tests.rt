//! Scripts that are read in pieces of several sizes.

ghost use Rattle.std.specs.Prelude.{◌≡◌, ◌<◌, true};
ghost use Rattle.sg_io.specs.MemSource.{is_begun};

use crate::{Cut, Window};
use sg_io::{MemSource, Source};
use std::alloc::{AllocError, Global};
use std::test::Fail;

/// The statements that are found, each behind the last digit of its line, and how the script ends.
fn found(alloc: Global, source: &mut MemSource) -> Result<Vec<u8>, Fail>
    requires { is_begun source.old ≡ true }
{
    let mut window = Window::new(alloc)?;
    let mut found = Vec::new(alloc);
    for _ in 0..1_000_000u64 {
        match window.next_statement() {
            Cut::Statement { line } => {
                found.push(digit(line))?;
                found.extend_from_slice(window.text())?;
            }
            Cut::More if window.has_room() => {
                window.fill(source)?;
            }
            Cut::More => {
                found.extend_from_slice(b"more")?;
                return Ok(found);
            }
            Cut::End => {
                found.extend_from_slice(b"end")?;
                return Ok(found);
            }
            Cut::TooLong { line } => {
                found.push(digit(line))?;
                found.extend_from_slice(b"long")?;
                return Ok(found);
            }
            Cut::Unfinished { line } => {
                found.push(digit(line))?;
                found.extend_from_slice(b"open")?;
                return Ok(found);
            }
        }
    }
    Ok(found)
}

/// The last digit of a number.
fn digit(number: u64) -> u8 {
    b'0' + (number % 10) as u8
}

/// Whether this is found in a script, in pieces of each size.
fn finds(alloc: Global, script: &[u8], want: &[u8]) -> Result<bool, Fail> {
    for piece in [1, 7, 65_536] {
        let mut source = MemSource::new(alloc, script, piece, &[])?;
        source.begin(None)?;
        if found(alloc, &mut source)?.as_slice() != want {
            return Ok(false);
        }
    }
    Ok(true)
}

/// Some bytes, the same byte so often, and some more.
fn wide(
    alloc: Global,
    front: &[u8],
    byte: u8,
    times: usize,
    back: &[u8],
) -> Result<Vec<u8>, AllocError> {
    let mut text = front.to_vec(alloc)?;
    for _ in 0..times {
        text.push(byte)?;
    }
    text.extend_from_slice(back)?;
    Ok(text)
}

#[test]
fn small_scripts(rt: HostRuntime) -> Result<(), Fail> {
    let rows: [(&[u8], &[u8]); 6] = [
        (b"", b"end"),
        (b" \n# a; comment", b"end"),
        (
            b"a;# c;\n\n if b then c;fi ; \"x;\";",
            b"1a;3if b then c;fi ;3\"x;\";end",
        ),
        (b"a;\n\n# c\n b", b"1a;4open"),
        (b"\n;;\n;", b"2;2;3;end"),
        (b"# a\n# b\n\"c", b"3open"),
    ];
    for (script, want) in rows {
        assert!(rt; finds(rt.alloc(), script, want)?);
    }
    Ok(())
}

#[test]
fn more_than_a_window(rt: HostRuntime) -> Result<(), Fail> {
    let alloc = rt.alloc();
    let comment = wide(alloc, b"a;\n#", b'x', 70_000, b"\n b;")?;
    assert!(rt; finds(alloc, &comment, b"1a;3b;end")?);
    let blanks = wide(alloc, b"", b'\n', 70_000, b"b;")?;
    assert!(rt; finds(alloc, &blanks, b"1b;end")?);
    let widest = wide(alloc, b"\na", b' ', 65_534, b";")?;
    assert!(rt; finds(alloc, &widest, &wide(alloc, b"2a", b' ', 65_534, b";end")?)?);
    let wider = wide(alloc, b"\na", b' ', 65_535, b";")?;
    assert!(rt; finds(alloc, &wider, b"2long")?);
    Ok(())
}
