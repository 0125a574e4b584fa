//! The last lines of a run.

ghost use Rattle.std.specs.Prelude.{◌≡◌, ◌≤◌, ◌++◌, ℕ, List, OnOk, decimal, codes};
ghost use Rattle.std.specs.Io.KnownBytes.{append_known};
ghost use Rattle.sg_io.specs.Faults.{AppendsFront, HasCauseAt};
ghost use Rattle.sgps_cli.specs.Causes.{last_line};
ghost use Rattle.sg_play.specs.FaultLines.{fault_line, name_of};
ghost use Rattle.sgps_cli.specs.Reports.{IsReport};
ghost use Rattle.sgps_cli.specs.Statistics.{counts_line, counts_lines, lines_with};

use crate::ended::Ended;
use crate::ending::{Cause, fault_name};
use itoa::Buffer;
use sg_calls::Fault;
use sg_io::{Sink, SinkFault, write_whole};
use sg_store::Counts;

/// Writes the line of a cause, if it has one, and the counts, where they are told, and says how the run ends: as it did, or
/// as the lines could not be written.
pub fn report<E: Sink>(err: &mut E, ended: Ended) -> Cause
    ensures said { (said : List ℕ) × (E.taken err.new ≡ append_known (E.taken err.old) said) × IsReport ended said (E.faults err.old) (E.faults err.new) result }
    ensures later { E.faults err.old ≤ E.faults err.new }
    ensures sure { E.sure err.new ≡ E.sure err.old }
{
    match write_lines(err, ended) {
        Ok(()) => ended.cause,
        Err(SinkFault::Failed) => Cause::WriteFault,
        Err(SinkFault::Memory) => Cause::Memory,
    }
}

/// Writes the last lines of a run.
fn write_lines<E: Sink>(err: &mut E, ended: Ended) -> Result<(), SinkFault>
    ensures all { OnOk result (E.taken err.new ≡ append_known (E.taken err.old) (lines_with ended.cause ended.counts)) }
    ensures front { AppendsFront (E.taken err.old) (E.taken err.new) (lines_with ended.cause ended.counts) }
    ensures cause { HasCauseAt SinkFault.Failed (E.faults err.old) (E.faults err.new) result }
    ensures sure { E.sure err.new ≡ E.sure err.old }
{
    match ended.counts {
        None => write_line(err, ended.cause),
        Some(counts) => {
            write_line(err, ended.cause)?;
            write_counts(err, counts)
        }
    }
}

/// Writes the lines of the counts.
fn write_counts<E: Sink>(err: &mut E, counts: Counts) -> Result<(), SinkFault>
    ensures all { OnOk result (E.taken err.new ≡ append_known (E.taken err.old) (counts_lines counts)) }
    ensures front { AppendsFront (E.taken err.old) (E.taken err.new) (counts_lines counts) }
    ensures cause { HasCauseAt SinkFault.Failed (E.faults err.old) (E.faults err.new) result }
    ensures sure { E.sure err.new ≡ E.sure err.old }
{
    write_count(err, b"table", counts.tables_asked, counts.tables_made)?;
    write_count(err, b"pseudo", counts.pseudo_asked, counts.pseudo_made)?;
    write_count(
        err,
        b"presentation",
        counts.presentations_asked,
        counts.presentations_made,
    )
}

/// Writes how often an attribute was asked for and made.
fn write_count<E: Sink>(err: &mut E, name: &[u8], asked: u64, made: u64) -> Result<(), SinkFault>
    ensures all { OnOk result (E.taken err.new ≡ append_known (E.taken err.old) (counts_line name.now asked made)) }
    ensures front { AppendsFront (E.taken err.old) (E.taken err.new) (counts_line name.now asked made) }
    ensures cause { HasCauseAt SinkFault.Failed (E.faults err.old) (E.faults err.new) result }
    ensures sure { E.sure err.new ≡ E.sure err.old }
{
    write_whole(err, name)?;
    write_whole(err, b" asked ")?;
    write_number(err, asked)?;
    write_whole(err, b" made ")?;
    write_number(err, made)?;
    write_whole(err, b"\n")
}

/// Writes the line of a cause.
fn write_line<E: Sink>(err: &mut E, cause: Cause) -> Result<(), SinkFault>
    ensures all { OnOk result (E.taken err.new ≡ append_known (E.taken err.old) (last_line cause)) }
    ensures front { AppendsFront (E.taken err.old) (E.taken err.new) (last_line cause) }
    ensures cause { HasCauseAt SinkFault.Failed (E.faults err.old) (E.faults err.new) result }
    ensures sure { E.sure err.new ≡ E.sure err.old }
{
    match cause {
        Cause::Ok | Cause::Refusals { .. } | Cause::WriteFault => write_whole(err, b""),
        Cause::Usage => write_whole(err, b"sgps: usage\n"),
        Cause::ReadFault => write_whole(err, b"sgps: read fault\n"),
        Cause::Overlong => write_whole(err, b"sgps: script too long\n"),
        Cause::Memory => write_whole(err, b"sgps: no memory\n"),
        Cause::Script { fault, line } => write_fault(err, fault, line),
        Cause::Budget { line } => write_fault(err, Fault::Budget, line),
    }
}

/// Writes the line of a refused statement.
pub fn write_fault<E: Sink>(err: &mut E, fault: Fault, line: u64) -> Result<(), SinkFault>
    ensures all { OnOk result (E.taken err.new ≡ append_known (E.taken err.old) (fault_line fault line)) }
    ensures front { AppendsFront (E.taken err.old) (E.taken err.new) (fault_line fault line) }
    ensures cause { HasCauseAt SinkFault.Failed (E.faults err.old) (E.faults err.new) result }
    ensures sure { E.sure err.new ≡ E.sure err.old }
{
    write_whole(err, b"sgps: line ")?;
    write_number(err, line)?;
    write_whole(err, b": ")?;
    write_name(err, fault)
}

/// Writes the name of a fault, and a line feed.
fn write_name<E: Sink>(err: &mut E, fault: Fault) -> Result<(), SinkFault>
    ensures all { OnOk result (E.taken err.new ≡ append_known (E.taken err.old) (name_of fault ++ codes "\n")) }
    ensures front { AppendsFront (E.taken err.old) (E.taken err.new) (name_of fault ++ codes "\n") }
    ensures cause { HasCauseAt SinkFault.Failed (E.faults err.old) (E.faults err.new) result }
    ensures sure { E.sure err.new ≡ E.sure err.old }
{
    write_whole(err, fault_name(fault))?;
    write_whole(err, b"\n")
}

/// Writes a number in decimal.
fn write_number<E: Sink>(err: &mut E, number: u64) -> Result<(), SinkFault>
    ensures all { OnOk result (E.taken err.new ≡ append_known (E.taken err.old) (decimal number)) }
    ensures front { AppendsFront (E.taken err.old) (E.taken err.new) (decimal number) }
    ensures cause { HasCauseAt SinkFault.Failed (E.faults err.old) (E.faults err.new) result }
    ensures sure { E.sure err.new ≡ E.sure err.old }
{
    let mut buffer = Buffer::new();
    write_whole(err, buffer.format(number).as_bytes())
}
