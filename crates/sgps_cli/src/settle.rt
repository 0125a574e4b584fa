//! The input that the words name is begun and played.

ghost use Rattle.std.specs.Prelude.{◌≡◌, ◌≤◌, ◌<◌, ◌⊎◌, ℕ, List, Option, true, false, None, Some, length, map, string_bytes};
ghost use Rattle.sg_io.specs.Faults.{Rose};
ghost use Rattle.sg_io.specs.Inputs.{missing_after};
ghost use Rattle.sg_words.specs.Asked.{wanted_of};
ghost use Rattle.sg_words.specs.Settings.{Wanted, settings_of};
ghost use Rattle.sg_cut.specs.declared.limits.TheConstants.{SCRIPT_LIMIT};
ghost use Rattle.sg_play.specs.Record.{Record};
ghost use Rattle.sgps_cli.specs.Ends.{IsClosed, Seen};
ghost use Rattle.sgps_cli.specs.Input.{HasInput, IsTaken, NamesNoInput};
ghost use Rattle.sgps_cli.specs.Settled.{plan_of};
ghost use Rattle.sgps_cli.specs.Written.{Sinks, Wrote};

use crate::drill::{drill, is_done, show};
use crate::ended::{Ended, told};
use crate::ending::Cause;
use crate::plan::Plan;
use crate::play::play;
use sg_drill::Tally;
use sg_io::{Sink, SinkFault, Source};
use sg_words::{Settings, WordsFault, read_words};
use std::alloc::Global;

/// Runs the script that the words name, or the drill, and says what ended it.
pub fn settle<S: Source, W: Sink, E: Sink>(
    alloc: Global,
    words: &[String],
    source: &mut S,
    out: &mut W,
    err: &mut E,
) -> Ended
    requires { S.begun source.old ≡ false }
    ensures ends { (written : Record) × Wrote (record { on_out = W.taken out.old; on_err = E.taken err.old }) (record { on_out = W.taken out.new; on_err = E.taken err.new }) written
        × IsClosed result
        (record { settings = settings_of (map string_bytes words.now); inputs = S.inputs source.old; begun = S.begun source.new; left = S.left source.new; faults_before = S.faults source.old; faults_after = S.faults source.new })
        written }
    ensures write_fault { result.cause ≡ Cause.WriteFault → Rose (W.faults out.old) (W.faults out.new) ⊎ Rose (E.faults err.old) (E.faults err.new) }
    ensures untouched { NamesNoInput (settings_of (map string_bytes words.now)) → source.new ≡ source.old }
    ensures taken { S.begun source.new ≡ true
        → (wanted : Wanted) × (settings_of (map string_bytes words.now) ≡ Some wanted)
        × ((bytes : List ℕ) × IsTaken (S.inputs source.old) wanted.file (S.left source.new) bytes × (length bytes ≤ SCRIPT_LIMIT)) }
    ensures missing { HasInput (settings_of (map string_bytes words.now)) (S.inputs source.old) → S.missing source.new ≡ S.missing source.old }
    ensures source_faults { S.faults source.old ≤ S.faults source.new }
    ensures out_faults { W.faults out.old ≤ W.faults out.new }
    ensures err_faults { E.faults err.old ≤ E.faults err.new }
    ensures inputs_kept { S.inputs source.new ≡ S.inputs source.old }
    ensures source_sure { S.sure source.new ≡ S.sure source.old }
    ensures out_sure { W.sure out.new ≡ W.sure out.old }
    ensures err_sure { E.sure err.new ≡ E.sure err.old }
{
    match read_words(alloc, words) {
        Ok(settings) => match settings.drill {
            None => play_input(alloc, settings, source, out, err),
            Some(statements) => play_drill(alloc, settings, statements, out),
        },
        Err(WordsFault::Usage) => Ended::bare(Cause::Usage),
        Err(WordsFault::Memory) => Ended::bare(Cause::Memory),
    }
}

/// Begins the input that the settings name, and plays it.
fn play_input<S: Source, W: Sink, E: Sink>(
    alloc: Global,
    settings: Settings<'_>,
    source: &mut S,
    out: &mut W,
    err: &mut E,
) -> Ended
    requires unbegun { S.begun source.old ≡ false }
    requires no_drill { settings.drill ≡ None }
    ensures ends { (written : Record) × Wrote (record { on_out = W.taken out.old; on_err = E.taken err.old }) (record { on_out = W.taken out.new; on_err = E.taken err.new }) written
        × IsClosed result (record { settings = Some (wanted_of settings.entry); inputs = S.inputs source.old; begun = S.begun source.new; left = S.left source.new; faults_before = S.faults source.old; faults_after = S.faults source.new }) written }
    ensures write_fault { result.cause ≡ Cause.WriteFault → Rose (W.faults out.old) (W.faults out.new) ⊎ Rose (E.faults err.old) (E.faults err.new) }
    ensures taken { S.begun source.new ≡ true
        → (bytes : List ℕ) × IsTaken (S.inputs source.old) (wanted_of settings.entry).file (S.left source.new) bytes × (length bytes ≤ SCRIPT_LIMIT) }
    ensures missing { S.missing source.new ≡ missing_after (S.inputs source.old) (wanted_of settings.entry).file (S.missing source.old) }
    ensures source_faults { S.faults source.old ≤ S.faults source.new }
    ensures out_faults { W.faults out.old ≤ W.faults out.new }
    ensures err_faults { E.faults err.old ≤ E.faults err.new }
    ensures inputs_kept { S.inputs source.new ≡ S.inputs source.old }
    ensures source_sure { S.sure source.new ≡ S.sure source.old }
    ensures out_sure { W.sure out.new ≡ W.sure out.old }
    ensures err_sure { E.sure err.new ≡ E.sure err.old }
{
    if source.begin(settings.file).is_err() {
        return Ended::bare(Cause::ReadFault);
    }
    let finish = play(alloc, plan_of(&settings), source, out, err);
    told(finish, settings.stats)
}

/// Plays the drill that the settings name, and shows its three lines where its script was played to the end.
fn play_drill<W: Sink>(alloc: Global, settings: Settings<'_>, statements: u64, out: &mut W) -> Ended
    requires named { settings.drill ≡ Some statements }
    requires some { 0 < statements }
    requires few { statements ≤ 100000 }
    ensures ends { (seen : Seen) (on_err : Option (List ℕ)) → seen.settings ≡ Some (wanted_of settings.entry)
        → (written : Record) × Wrote (record { on_out = W.taken out.old; on_err = on_err }) (record { on_out = W.taken out.new; on_err = on_err }) written × IsClosed result seen written }
    ensures write_fault { result.cause ≡ Cause.WriteFault → Rose (W.faults out.old) (W.faults out.new) }
    ensures out_faults { W.faults out.old ≤ W.faults out.new }
    ensures out_sure { W.sure out.new ≡ W.sure out.old }
{
    let mut tally = Tally::new(alloc);
    let finish = drill(alloc, plan_of(&settings), statements, &mut tally);
    if is_done(finish.cause) {
        match show(alloc, statements, &tally, out) {
            Ok(()) => {}
            Err(SinkFault::Failed) => return Ended::bare(Cause::WriteFault),
            Err(SinkFault::Memory) => return Ended::bare(Cause::Memory),
        }
    }
    told(finish, settings.stats)
}

/// How the script is played: with a drill no refused statement is passed.
fn plan_of(settings: &Settings<'_>) -> Plan
    ensures { result ≡ plan_of (wanted_of settings.now) }
{
    Plan {
        budget: settings.budget,
        capacity: settings.cache as usize,
        keep: settings.keep_going && settings.drill.is_none(),
    }
}
