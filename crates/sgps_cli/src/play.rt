//! A script is played as it is read: its statements are found, read and executed in turn.

ghost use Rattle.std.specs.Prelude.{◌≡◌, ◌+◌, ◌<◌, ◌≤◌, ◌⊎◌, ℕ, List, Option, length, true, false};
ghost use Rattle.std.specs.Io.KnownBytes.{append_known, prepend_known};
ghost use Rattle.sg_io.specs.Faults.{HasCauseAt, Rose};
ghost use Rattle.sg_cut.specs.declared.limits.TheConstants.{SCRIPT_LIMIT, STATEMENT_LIMIT};
ghost use Rattle.sg_eval.specs.Machine.{state_of};
ghost use Rattle.sg_store.specs.Attributes.{AreCounts, Attributes, nothing_asked};
ghost use Rattle.sg_play.specs.Record.{Record};
ghost use Rattle.sgps_cli.specs.Playing.{Acts, Begun, Concludes, Executed, IsGoing, IsReached, ReadsMore, Turns, work_of};
ghost use Rattle.sgps_cli.specs.Written.{Sinks, Wrote};

use crate::ending::Cause;
use crate::passed::{Passed, refusal};
use crate::plan::{Finish, Plan};
use crate::report::write_fault;
use sg_calls::Fault;
use sg_cut::SCRIPT_LIMIT;
use sg_eval::{Flow, Machine, StepFault};
use sg_io::{Sink, SinkFault, Source};
use sg_script::{ParseFault, parse};
use sg_store::{Counts, Store};
use sg_window::{Cut, Window};
use std::alloc::Global;

/// What one turn of a play came to.
#[derive(Clone, Copy)]
enum Turn {
    /// The play goes on, and these statements were passed.
    Goes(Passed),
    /// The play ends here.
    Stops(Cause),
}

/// Plays an input that was begun, from its first byte and with no variable, and says what ends the run, and what was
/// counted by then. No more is read before each statement that was read whole is executed.
pub fn play<S: Source, W: Sink, E: Sink>(
    alloc: Global,
    plan: Plan,
    source: &mut S,
    out: &mut W,
    err: &mut E,
) -> Finish
    requires { S.begun source.old ≡ true }
    ensures plays { (kept : Attributes) × AreCounts kept result.counts
        × Concludes result.cause (record { plan = plan; all = S.left source.old; sinks = record { on_out = W.taken out.old; on_err = E.taken err.old } }) kept (S.left source.new) (record { on_out = W.taken out.new; on_err = E.taken err.new }) }
    ensures read_fault { result.cause ≡ Cause.ReadFault → Rose (S.faults source.old) (S.faults source.new) }
    ensures write_fault { result.cause ≡ Cause.WriteFault → Rose (W.faults out.old) (W.faults out.new) ⊎ Rose (E.faults err.old) (E.faults err.new) }
    ensures source_faults { S.faults source.old ≤ S.faults source.new }
    ensures out_faults { W.faults out.old ≤ W.faults out.new }
    ensures err_faults { E.faults err.old ≤ E.faults err.new }
    ensures begun { S.begun source.new ≡ true }
    ensures missing { S.missing source.new ≡ S.missing source.old }
    ensures inputs { S.inputs source.new ≡ S.inputs source.old }
    ensures source_sure { S.sure source.new ≡ S.sure source.old }
    ensures out_sure { W.sure out.new ≡ W.sure out.old }
    ensures err_sure { E.sure err.new ≡ E.sure err.old }
{
    let mut window = match Window::new(alloc) {
        Ok(window) => window,
        Err(_) => return unplayed(),
    };
    let store = match Store::new(alloc, plan.capacity) {
        Ok(store) => store,
        Err(_) => return unplayed(),
    };
    let mut machine = Machine::new(alloc, store, plan.budget);
    let mut passed = Passed { count: 0, line: 0 };
    loop {
        match take_turn(
            alloc,
            plan,
            &mut window,
            &mut machine,
            passed,
            source,
            out,
            err,
        ) {
            Turn::Goes(now) => passed = now,
            Turn::Stops(cause) => return Finish::new(cause, machine.counts()),
        }
    }
}

/// Nothing was played for want of memory.
pub fn unplayed() -> Finish
    ensures cause { result.cause ≡ Cause.Memory }
    ensures counts { AreCounts (nothing_asked 0) result.counts }
{
    Finish {
        cause: Cause::Memory,
        counts: Counts {
            tables_asked: 0,
            tables_made: 0,
            pseudo_asked: 0,
            pseudo_made: 0,
            presentations_asked: 0,
            presentations_made: 0,
            tames_asked: 0,
            tames_made: 0,
        },
    }
}

/// Looks for the next statement and executes it, or reads more where there is none.
fn take_turn<S: Source, W: Sink, E: Sink>(
    alloc: Global,
    plan: Plan,
    window: &mut Window,
    machine: &mut Machine,
    passed: Passed,
    source: &mut S,
    out: &mut W,
    err: &mut E,
) -> Turn
    requires begun { S.begun source.old ≡ true }
    requires fits { passed.count + length window.old.rest ≤ SCRIPT_LIMIT }
    ensures turns { (b : Begun) → IsReached (record b { plan = plan }) window.old (state_of machine.old) passed (S.left source.old) (record { on_out = W.taken out.old; on_err = E.taken err.old })
        → Turns result (record b { plan = plan }) window.new (state_of machine.new) (S.left source.new) (record { on_out = W.taken out.new; on_err = E.taken err.new }) }
    ensures shrinks { IsGoing result → work_of window.new < work_of window.old }
    ensures read_fault { result ≡ Turn.Stops Cause.ReadFault → Rose (S.faults source.old) (S.faults source.new) }
    ensures write_fault { result ≡ Turn.Stops Cause.WriteFault → Rose (W.faults out.old) (W.faults out.new) ⊎ Rose (E.faults err.old) (E.faults err.new) }
    ensures source_faults { S.faults source.old ≤ S.faults source.new }
    ensures out_faults { W.faults out.old ≤ W.faults out.new }
    ensures err_faults { E.faults err.old ≤ E.faults err.new }
    ensures begun { S.begun source.new ≡ true }
    ensures missing { S.missing source.new ≡ S.missing source.old }
    ensures inputs { S.inputs source.new ≡ S.inputs source.old }
    ensures source_sure { S.sure source.new ≡ S.sure source.old }
    ensures out_sure { W.sure out.new ≡ W.sure out.old }
    ensures err_sure { E.sure err.new ≡ E.sure err.old }
{
    match window.next_statement() {
        Cut::Statement { line } => {
            perform(
                alloc,
                plan.keep,
                machine,
                window.text(),
                line,
                passed,
                out,
                err,
            )
        }
        Cut::More => read_more(window, passed, source),
        Cut::End => Turn::Stops(passed.end()),
        Cut::TooLong { line } => Turn::Stops(refusal(Fault::TooLong, line)),
        Cut::Unfinished { line } => Turn::Stops(refusal(Fault::Syntax, line)),
    }
}

/// Reads more of the script, where it may have more.
fn read_more<S: Source>(window: &mut Window, passed: Passed, source: &mut S) -> Turn
    requires room { length window.old.text + length window.old.rest < STATEMENT_LIMIT }
    requires not_ended { window.old.ended ≡ false }
    requires begun { S.begun source.old ≡ true }
    ensures reads { (got : List ℕ) × (S.left source.old ≡ prepend_known got (S.left source.new)) × ReadsMore passed window.old window.new got (S.left source.new) result }
    ensures read_fault { result ≡ Turn.Stops Cause.ReadFault → Rose (S.faults source.old) (S.faults source.new) }
    ensures source_faults { S.faults source.old ≤ S.faults source.new }
    ensures begun { S.begun source.new ≡ true }
    ensures missing { S.missing source.new ≡ S.missing source.old }
    ensures inputs { S.inputs source.new ≡ S.inputs source.old }
    ensures sure { S.sure source.new ≡ S.sure source.old }
{
    if window.taken() == SCRIPT_LIMIT as u64 {
        return Turn::Stops(Cause::Overlong);
    }
    match window.fill(source) {
        Ok(_) => Turn::Goes(passed),
        Err(_) => Turn::Stops(Cause::ReadFault),
    }
}

/// Executes the statement with this text, which begins in this line.
fn perform<W: Sink, E: Sink>(
    alloc: Global,
    keep: bool,
    machine: &mut Machine,
    text: &[u8],
    line: u64,
    passed: Passed,
    out: &mut W,
    err: &mut E,
) -> Turn
    requires { passed.count < SCRIPT_LIMIT }
    ensures acts { (written : Record) × Wrote (record { on_out = W.taken out.old; on_err = E.taken err.old }) (record { on_out = W.taken out.new; on_err = E.taken err.new }) written
        × Acts keep text.now line passed (state_of machine.old) (state_of machine.new) written result }
    ensures read_fault { result ≡ Turn.Stops Cause.ReadFault → ⊥ }
    ensures write_fault { result ≡ Turn.Stops Cause.WriteFault → Rose (W.faults out.old) (W.faults out.new) ⊎ Rose (E.faults err.old) (E.faults err.new) }
    ensures out_faults { W.faults out.old ≤ W.faults out.new }
    ensures err_faults { E.faults err.old ≤ E.faults err.new }
    ensures out_sure { W.sure out.new ≡ W.sure out.old }
    ensures err_sure { E.sure err.new ≡ E.sure err.old }
{
    match execute(alloc, machine, text, out) {
        Ok(Flow::On) => Turn::Goes(passed),
        Ok(Flow::Quit) => Turn::Stops(passed.end()),
        Err(StepFault::Script(fault)) => {
            if !keep {
                return Turn::Stops(refusal(fault, line));
            }
            match write_fault(err, fault, line) {
                Ok(()) => Turn::Goes(passed.and_one(line)),
                Err(SinkFault::Failed) => Turn::Stops(Cause::WriteFault),
                Err(SinkFault::Memory) => Turn::Stops(Cause::Memory),
            }
        }
        Err(StepFault::Write) => Turn::Stops(Cause::WriteFault),
        Err(StepFault::Memory) => Turn::Stops(Cause::Memory),
    }
}

/// Reads the text of a statement and executes it.
fn execute<W: Sink>(
    alloc: Global,
    machine: &mut Machine,
    text: &[u8],
    out: &mut W,
) -> Result<Flow, StepFault>
    ensures executed { (gained : List ℕ) × (W.taken out.new ≡ append_known (W.taken out.old) gained) × Executed result text.now (state_of machine.old) (state_of machine.new) gained }
    ensures budget { (state_of machine.new).budget ≡ (state_of machine.old).budget }
    ensures cause { HasCauseAt StepFault.Write (W.faults out.old) (W.faults out.new) result }
    ensures sure { W.sure out.new ≡ W.sure out.old }
{
    match parse(alloc, text) {
        Ok(stmt) => machine.step(alloc, &stmt, out),
        Err(ParseFault::Syntax) => Err(StepFault::Script(Fault::Syntax)),
        Err(ParseFault::Depth) => Err(StepFault::Script(Fault::Depth)),
        Err(ParseFault::Memory(_)) => Err(StepFault::Memory),
    }
}
