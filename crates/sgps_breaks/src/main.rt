//! Breaks a worked script, which stands on standard input, at every place, and tells how many runs end otherwise than
//! the script has it: each read fails in turn, each write fails in turn, the script ends behind each of its bytes, and
//! the output is taken byte by byte.
//!
//! The script is written in parts, parted by empty lines. A part has at most one statement, which begins in a line of
//! its own, ends in `;` at the end of a line, and writes at most once. Its comments `#> ` have what it prints, as in the
//! table of `sgps_scripts`.
#![tactic(auto)]

ghost use Rattle.std.specs.Prelude.{◌<◌};

mod drip;
mod parts;
mod trial;

use drip::Drip;
use parts::{Part, parts_of, printed_within, writes_of};
use sg_io::{MemSink, MemSource};
use std::alloc::{AllocError, Global};
use std::io;
use trial::{Ended, Tally, end_of};

/// How many bytes a read gives.
const PIECE: usize = 7;

fn main(rt: HostRuntime) -> io::Result<()> {
    let script = io::read_to_string(rt.alloc(), rt.stdin())?;
    let parts = parts_of(rt.alloc(), &script)?;
    let reads = failing_reads(rt.alloc(), script.as_bytes(), &parts)?;
    println!(rt; "reads that fail: {reads}")?;
    let writes = failing_writes(rt.alloc(), script.as_bytes(), &parts)?;
    println!(rt; "writes that fail: {writes}")?;
    let fronts = fronts(rt.alloc(), script.as_bytes(), &parts)?;
    println!(rt; "fronts of the script: {fronts}")?;
    let drips = drips(rt.alloc(), script.as_bytes(), &parts)?;
    println!(rt; "byte by byte: {drips}")
}

/// Each read fails in turn, the first call being the begin of the script and the last the one that tells its end: what
/// was written is what the statements print that end inside the bytes read.
fn failing_reads(alloc: Global, script: &[u8], parts: &[Part]) -> Result<Tally, AllocError> {
    let calls = (script.len().saturating_add(PIECE - 1) / PIECE).saturating_add(2);
    let mut tally = Tally::default();
    for call in 0..calls {
        let mut source = MemSource::new(alloc, script, PIECE, &[call as u64])?;
        let mut out = MemSink::new(alloc, &[])?;
        let ran = end_of(alloc, &mut source, &mut out)?;
        let bytes = PIECE.saturating_mul(call.saturating_sub(1));
        let told = Ended::new(alloc, 3, b"sgps: read fault\n")?;
        let printed = printed_within(alloc, parts, bytes)?;
        tally.count(ran == told && out.bytes() == printed.as_slice());
    }
    Ok(tally)
}

/// Each write of a text fails in turn, and then none: what was written are the texts before it.
fn failing_writes(alloc: Global, script: &[u8], parts: &[Part]) -> Result<Tally, AllocError> {
    let mut tally = Tally::default();
    for (number, begin) in writes_of(alloc, parts)?.iter().enumerate() {
        let mut source = MemSource::new(alloc, script, PIECE, &[])?;
        let mut out = MemSink::new(alloc, &[number as u64])?;
        let ran = end_of(alloc, &mut source, &mut out)?;
        let told = Ended::new(alloc, 4, b"")?;
        let printed = printed_within(alloc, parts, *begin)?;
        tally.count(ran == told && out.bytes() == printed.as_slice());
    }
    Ok(tally)
}

/// The script ends behind each of its bytes: inside a statement that is Syntax, at the line where it begins, and else it
/// ends well.
fn fronts(alloc: Global, script: &[u8], parts: &[Part]) -> Result<Tally, AllocError> {
    let mut tally = Tally::default();
    for end in 0..=script.len() {
        let mut source = MemSource::new(alloc, &script[..end], PIECE, &[])?;
        let mut out = MemSink::new(alloc, &[])?;
        let ran = end_of(alloc, &mut source, &mut out)?;
        let told = told_of_front(alloc, parts, end)?;
        let printed = printed_within(alloc, parts, end)?;
        tally.count(ran == told && out.bytes() == printed.as_slice());
    }
    Ok(tally)
}

/// How the script ends that has so many bytes.
fn told_of_front(alloc: Global, parts: &[Part], end: usize) -> Result<Ended, AllocError> {
    for part in parts {
        if part.begin < end && end < part.end {
            let line = part.line;
            let text = format!(in alloc; "sgps: line {line}: Syntax\n")?;
            return Ended::new(alloc, 1, text.as_bytes());
        }
    }
    Ended::new(alloc, 0, b"")
}

/// The output is taken byte by byte, of a script that is read in pieces of 1 to 9 bytes.
fn drips(alloc: Global, script: &[u8], parts: &[Part]) -> Result<Tally, AllocError> {
    let mut tally = Tally::default();
    for piece in 1..10usize {
        let mut source = MemSource::new(alloc, script, piece, &[])?;
        let mut out = Drip::new(alloc);
        let ran = end_of(alloc, &mut source, &mut out)?;
        let told = Ended::new(alloc, 0, b"")?;
        let printed = printed_within(alloc, parts, script.len())?;
        tally.count(ran == told && out.bytes() == printed.as_slice());
    }
    Ok(tally)
}
