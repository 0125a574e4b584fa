//! A drill is played from memory, and what it printed is counted and not shown.

ghost use Rattle.std.specs.Prelude.{◌≡◌, ◌<◌, ◌≤◌, [], OnOk};
ghost use Rattle.std.specs.Io.KnownBytes.{append_known};
ghost use Rattle.sg_drill.specs.Summary.{summary_of};
ghost use Rattle.sg_drill.specs.Tally.{printed};
ghost use Rattle.sg_io.specs.Faults.{AppendsFront, HasCauseAt};
ghost use Rattle.sg_store.specs.Attributes.{AreCounts, Attributes};
ghost use Rattle.sgps_cli.specs.Drilled.{Drills, is_done};

use crate::ending::Cause;
use crate::plan::{Finish, Plan};
use crate::play::{play, unplayed};
use sg_drill::{Tally, drill_lines, drill_text};
use sg_io::{MemSource, Sink, SinkFault, Source, write_whole};
use std::alloc::Global;

/// How many bytes of its script a drill reads at once.
const PIECE: usize = 65_536;

/// Plays the drill with so many statements, which print to the tally.
pub fn drill(alloc: Global, plan: Plan, statements: u64, tally: &mut Tally) -> Finish
    requires some { 0 < statements }
    requires few { statements ≤ 100000 }
    requires empty { printed tally.old ≡ [] }
    ensures drills { (kept : Attributes) × AreCounts kept result.counts × Drills result.cause plan statements kept (printed tally.new) }
    ensures writes { result.cause ≡ Cause.WriteFault → ⊥ }
{
    let Ok(text) = drill_text(alloc, statements) else {
        return unplayed();
    };
    let Ok(mut source) = MemSource::new(alloc, text.as_slice(), PIECE, &[]) else {
        return unplayed();
    };
    if source.begin(None).is_err() {
        return unplayed();
    }
    let mut passed = Tally::new(alloc);
    play(alloc, plan, &mut source, tally, &mut passed)
}

/// Whether a run that ends so played its script to the end.
pub fn is_done(cause: Cause) -> bool
    ensures { result ≡ is_done cause }
{
    match cause {
        Cause::Ok | Cause::Refusals { .. } => true,
        Cause::Usage
        | Cause::ReadFault
        | Cause::Overlong
        | Cause::WriteFault
        | Cause::Memory
        | Cause::Script { .. }
        | Cause::Budget { .. } => false,
    }
}

/// Writes the three lines of a drill whose output the tally took.
pub fn show<W: Sink>(
    alloc: Global,
    statements: u64,
    tally: &Tally,
    out: &mut W,
) -> Result<(), SinkFault>
    ensures all { OnOk result (W.taken out.new ≡ append_known (W.taken out.old) (summary_of statements (printed tally.now))) }
    ensures front { AppendsFront (W.taken out.old) (W.taken out.new) (summary_of statements (printed tally.now)) }
    ensures cause { HasCauseAt SinkFault.Failed (W.faults out.old) (W.faults out.new) result }
    ensures sure { W.sure out.new ≡ W.sure out.old }
{
    let Ok(lines) = drill_lines(alloc, statements, tally) else {
        return Err(SinkFault::Memory);
    };
    write_whole(out, lines.as_bytes())
}
