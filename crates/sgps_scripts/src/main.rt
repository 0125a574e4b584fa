//! Runs the scripts of a table, which stands on standard input, and tells those that end otherwise than their row has it.
//!
//! Rows are parted by an empty line. A row as it stands is a script. Its comments `#> ` have what it prints, and its
//! comments `#! ` the lines that it writes to standard error. To the byte: printed are the texts behind `#> `, joined by
//! line feeds, so that a text which ends in a line feed has a last line `#>` with nothing behind. The status is 2 where
//! the line behind `#! ` is `sgps: usage`, 1 where the first one is that of a fault, and else 0. A comment `#$ ` has the
//! words of the command, parted by blanks. A row that is one line `# ` is a heading, and is not run.
//!
//! Each script is read in pieces of 1 byte and in pieces of 4,096 bytes.
#![tactic(auto)]

ghost use Rattle.std.specs.Prelude.{◌<◌};

use sg_io::{MemSink, MemSource};
use sgps_cli::run;
use std::alloc::{AllocError, Global};
use std::io;

/// How a script ends: what it printed, what it wrote to standard error, and its status.
#[derive(PartialEq, Eq, Drop)]
struct Outcome {
    out: Vec<u8>,
    err: Vec<u8>,
    status: u8,
}

fn main(rt: HostRuntime) -> io::Result<()> {
    let table = io::read_to_string(rt.alloc(), rt.stdin())?;
    let mut line = 1usize;
    let mut scripts = 0usize;
    let mut differ = 0usize;
    for row in table.split("\n\n") {
        if !is_heading(row) {
            scripts = scripts.saturating_add(1);
            if !ends_as_told(&rt, line, row)? {
                differ = differ.saturating_add(1);
            }
        }
        line = line
            .saturating_add(row.matches('\n').count())
            .saturating_add(2);
    }
    println!(rt; "{scripts} scripts, {differ} differ")
}

/// Whether a row is a heading.
fn is_heading(row: &str) -> bool {
    row.starts_with("# ") && !row.contains('\n')
}

/// Whether the script of the row at this line ends as the row has it, in pieces of either size. Prints how else it ends.
fn ends_as_told(rt: &(impl AllocGlobal + Print), line: usize, row: &str) -> io::Result<bool> {
    let told = told(rt.alloc(), row)?;
    let mut same = true;
    for piece in [1, 4_096] {
        let ended = ended(rt.alloc(), row, piece)?;
        if ended != told {
            same = false;
            let out = String::from_utf8_lossy(rt.alloc(), &ended.out)?;
            let err = String::from_utf8_lossy(rt.alloc(), &ended.err)?;
            let status = ended.status;
            println!(rt; "line {line}, in pieces of {piece}: {out:?} {err:?} {status}")?;
        }
    }
    Ok(same)
}

/// How the row has it that its script ends.
fn told(alloc: Global, row: &str) -> Result<Outcome, AllocError> {
    let out = behind(alloc, row, "#>")?;
    let mut err = behind(alloc, row, "#!")?;
    let status = if err.starts_with(b"sgps: usage") {
        2
    } else {
        u8::from(err.starts_with(b"sgps: "))
    };
    if !err.is_empty() {
        err.push(b'\n')?;
    }
    Ok(Outcome { out, err, status })
}

/// The texts behind this mark and a space, joined by line feeds.
fn behind(alloc: Global, row: &str, mark: &str) -> Result<Vec<u8>, AllocError> {
    let mut texts = Vec::new(alloc);
    let mut is_first = true;
    for line in row.lines() {
        if let Some(text) = line.strip_prefix(mark) {
            if !is_first {
                texts.push(b'\n')?;
            }
            is_first = false;
            texts.extend_from_slice(text.strip_prefix(' ').unwrap_or(text).as_bytes())?;
        }
    }
    Ok(texts)
}

/// The words with which the script of a row is run.
fn words_of(alloc: Global, row: &str) -> Result<Vec<String>, AllocError> {
    let mut words = Vec::new(alloc);
    for line in row.lines() {
        if let Some(text) = line.strip_prefix("#$ ") {
            for word in text.split(' ') {
                words.push(String::from_str(alloc, word)?)?;
            }
        }
    }
    Ok(words)
}

/// How the script ends that is read in pieces of this size.
fn ended(alloc: Global, script: &str, piece: usize) -> Result<Outcome, AllocError>
    requires { 0 < piece }
{
    let mut source = MemSource::new(alloc, script.as_bytes(), piece, &[])?;
    let mut out = MemSink::new(alloc, &[])?;
    let mut err = MemSink::new(alloc, &[])?;
    let words = words_of(alloc, script)?;
    let ending = run(alloc, &words, &mut source, &mut out, &mut err);
    Ok(Outcome {
        out: out.bytes().to_vec(alloc)?,
        err: err.bytes().to_vec(alloc)?,
        status: ending.status,
    })
}
