//! The top call.

ghost use Rattle.std.specs.Prelude.{◌≡◌, ◌≤◌, ℕ, List, true, false, None, Some, length, map, string_bytes};
ghost use Rattle.sg_io.specs.Faults.{Rose};
ghost use Rattle.sgps_cli.specs.Causes.{status_of};
ghost use Rattle.sg_words.specs.Settings.{Wanted, settings_of};
ghost use Rattle.sgps_cli.specs.Input.{HasInput, IsTaken, NamesNoInput};
ghost use Rattle.sg_cut.specs.declared.limits.TheConstants.{SCRIPT_LIMIT};
ghost use Rattle.sgps_cli.specs.Ends.{Ends, EndsWell, IsOverlongAtLimit, PlaysToEnd, ReadsInOnePass};

use crate::ending::Ending;
use crate::report::report;
use crate::settle::settle;
use sg_io::{Sink, Source};
use std::alloc::Global;

/// Runs the script that the words name: standard input, one file, or a drill. Each statement is executed before more is
/// read. What it prints goes to `out`, and the line of the end, if it has one, to `err`. With `--keep-going` the line of a
/// refused statement goes to `err` at once, and the run goes on behind it. With `--drill N` no source is begun, and `out`
/// gets the three lines of the drill in place of what its statements print.
///
/// Ok: the script ran to its end, or to `quit;`, and no statement was refused; Refusals: some were, with their number and
/// the line of the last. Script, and Budget: a statement was refused, by that fault, with its line, and the run ended
/// there. Usage: the words are not accepted, and nothing was begun. ReadFault: the source failed, and no statement inside
/// the bytes read ends the run. Overlong: as many bytes were taken as a script may have, and no statement inside them ends
/// the run. WriteFault: a sink failed. Memory: memory was wanting, at any point; after these two the sinks have a front of
/// what the script writes.
pub fn run<S: Source, W: Sink, E: Sink>(
    alloc: Global,
    words: &[String],
    source: &mut S,
    out: &mut W,
    err: &mut E,
) -> Ending
    requires { S.begun source.old ≡ false }

    // The headline: how the run ends, and all that it wrote, by what the definitions say of the script.
    ensures ends { Ends result.cause
        (record { settings = settings_of (map string_bytes words.now); inputs = S.inputs source.old; begun = S.begun source.new; left = S.left source.new; faults_before = S.faults source.old; faults_after = S.faults source.new })
        (record { on_out = W.taken out.old; on_err = E.taken err.old })
        (record { on_out = W.taken out.new; on_err = E.taken err.new })
        (record { out_before = W.faults out.old; out_after = W.faults out.new; err_before = E.faults err.old; err_after = E.faults err.new }) }
    ensures status { result.status ≡ status_of result.cause }

    // Overlong comes exactly where as many bytes were taken as a script may have, and no statement inside them ends the
    // run; a sink that fails, or want of memory, may stop it before it says so.
    ensures overlong { IsOverlongAtLimit result.cause
        (record { settings = settings_of (map string_bytes words.now); inputs = S.inputs source.old; begun = S.begun source.new; left = S.left source.new; faults_before = S.faults source.old; faults_after = S.faults source.new }) }

    // A run that ends at a statement took no more than a statement may have, from the first byte of that statement on.
    ensures one_pass { ReadsInOnePass result.cause
        (record { settings = settings_of (map string_bytes words.now); inputs = S.inputs source.old; begun = S.begun source.new; left = S.left source.new; faults_before = S.faults source.old; faults_after = S.faults source.new }) }

    // A script that is played to its end ends Ok, as Refusals where statements were refused, or for want of memory, where
    // nothing fails.
    ensures complete { (plays : PlaysToEnd (settings_of (map string_bytes words.now)) (S.inputs source.old))
        → ¬ Rose (S.faults source.old) (S.faults source.new) → ¬ Rose (W.faults out.old) (W.faults out.new) → ¬ Rose (E.faults err.old) (E.faults err.new)
        → EndsWell result.cause plays.play.refusals }
    ensures complete_if_sure { (plays : PlaysToEnd (settings_of (map string_bytes words.now)) (S.inputs source.old))
        → S.sure source.old ≡ true → S.faults source.old ≡ 0 → W.sure out.old ≡ true → E.sure err.old ≡ true
        → EndsWell result.cause plays.play.refusals }

    // Refused words, and a drill, leave the source alone. One that is begun has the input, of which no more than the limit is taken;
    // no input is asked for that is not there.
    ensures untouched { NamesNoInput (settings_of (map string_bytes words.now)) → source.new ≡ source.old }
    ensures taken { S.begun source.new ≡ true
        → (wanted : Wanted) × (settings_of (map string_bytes words.now) ≡ Some wanted)
        × ((bytes : List ℕ) × IsTaken (S.inputs source.old) wanted.file (S.left source.new) bytes × (length bytes ≤ SCRIPT_LIMIT)) }
    ensures missing { HasInput (settings_of (map string_bytes words.now)) (S.inputs source.old) → S.missing source.new ≡ S.missing source.old }

    // Counts of faults never fall, and what is sure, and the inputs, stay.
    ensures source_faults { S.faults source.old ≤ S.faults source.new }
    ensures out_faults { W.faults out.old ≤ W.faults out.new }
    ensures err_faults { E.faults err.old ≤ E.faults err.new }
    ensures inputs_kept { S.inputs source.new ≡ S.inputs source.old }
    ensures source_sure { S.sure source.new ≡ S.sure source.old }
    ensures out_sure { W.sure out.new ≡ W.sure out.old }
    ensures err_sure { E.sure err.new ≡ E.sure err.old }
{
    let ended = settle(alloc, words, source, out, err);
    let cause = report(err, ended);
    Ending {
        status: cause.status(),
        cause,
    }
}
