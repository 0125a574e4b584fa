//! What statements do.

ghost use Rattle.std.specs.Prelude.{◌≡◌, ◌++◌, [], List, ℕ, Option, Some, None, MatchOption, IfOk, IfErr, OnOk, OnErr, slice_get};
ghost use Rattle.sg_value.specs.Known.{named};
ghost use Rattle.std.specs.Io.KnownBytes.{append_known};
ghost use Rattle.sg_io.specs.Faults.{AppendsFront, HasCauseAt};
ghost use Rattle.sg_value.specs.Plain.{AllKnown, AllKnownIn, plain, plain_of_all};
ghost use Rattle.sg_tree.specs.TreeView.{tree_of, code_of, block_of, arms_of, arguments_of};
ghost use Rattle.sg_tree.specs.Tree.{assign as assigning};
ghost use Rattle.sg_meaning.specs.Process.{sets};
ghost use Rattle.sg_calls.specs.Commands.{word_named};
ghost use Rattle.sg_meaning.specs.Statements.{exec as meaning, exec_all as meaning_of_all, done, is_print, over};
ghost use Rattle.sg_eval.specs.Steps.{Executed, arm_done, held, listed_of, print_done, printed_arguments, IsOutside, IsInside};
ghost use Rattle.sg_eval.specs.Outcomes.{Evaluates};
ghost use Rattle.sg_meaning.specs.Entries.{integers_from};
ghost use Rattle.sg_eval.specs.Ranges.{IsRange, entries_in, are_known};
ghost use Rattle.sg_eval.specs.Truths.{itself, no_semigroup};
ghost use Rattle.sg_eval.specs.Machine.{state_of};

use crate::answers::{decide, entries, range};
use crate::eval::{eval, given};
use crate::growth::{grow, others_onto};
use crate::integers::integer;
use crate::machine::Machine;
use crate::sequence::{Range, Sequence};
use crate::step_fault::StepFault;
use sg_calls::{CallFault, Fault, Word, word_named};
use sg_io::{Sink, SinkFault, write_whole};
use sg_nat::Bytes;
use sg_tree::{Arg, Expr, Stmt};
use sg_value::{Value, try_clone};
use std::alloc::{AllocError, Global};

/// Does what a statement inside a block says, or a whole one but `quit`.
#[cycle(exec)]
pub fn exec<W: Sink>(
    alloc: Global,
    machine: &mut Machine,
    stmt: &Stmt,
    out: &mut W,
) -> Result<(), StepFault>
    requires { (state_of machine.old).parameters ≡ [] }
    ensures done { Executed result (state_of machine.old) (state_of machine.new) (W.taken out.old) (W.taken out.new) (meaning (code_of stmt.now)) }
    ensures cause { HasCauseAt StepFault.Write (W.faults out.old) (W.faults out.new) result }
    ensures sure { W.sure out.new ≡ W.sure out.old }
{
    match stmt {
        Stmt::Empty => Ok(()),
        Stmt::Quit => Ok(()),
        Stmt::Assign(name, e) => assign(alloc, machine, name, e),
        Stmt::If(arms, other) => {
            if exec_arms(alloc, machine, arms, out)? {
                return Ok(());
            }
            exec_all(alloc, machine, other, out)
        }
        Stmt::For(name, e, body) => {
            match list_of(alloc, machine, e)? {
                Sequence::Listed(list) => repeat(alloc, machine, body, name, list.as_slice(), out),
                Sequence::Counted(range) => count_up(alloc, machine, body, name, range, out),
            }
        }
        Stmt::Do(e) => perform(alloc, machine, e, out),
    }
}

/// Does one statement of a block after the other.
#[cycle(exec)]
fn exec_all<W: Sink>(
    alloc: Global,
    machine: &mut Machine,
    stmts: &[Stmt],
    out: &mut W,
) -> Result<(), StepFault>
    requires { (state_of machine.old).parameters ≡ [] }
    ensures done { Executed result (state_of machine.old) (state_of machine.new) (W.taken out.old) (W.taken out.new) (meaning_of_all (block_of stmts.now)) }
    ensures cause { HasCauseAt StepFault.Write (W.faults out.old) (W.faults out.new) result }
    ensures sure { W.sure out.new ≡ W.sure out.old }
{
    for stmt in stmts {
        exec(alloc, machine, stmt, out)?;
    }
    Ok(())
}

/// Does the block of the first arm whose condition is true, and says whether there was one.
#[cycle(exec)]
fn exec_arms<W: Sink>(
    alloc: Global,
    machine: &mut Machine,
    arms: &[(Expr, Vec<Stmt>)],
    out: &mut W,
) -> Result<bool, StepFault>
    requires { (state_of machine.old).parameters ≡ [] }
    ensures done { Executed result (state_of machine.old) (state_of machine.new) (W.taken out.old) (W.taken out.new) (arm_done (arms_of arms.now)) }
    ensures cause { HasCauseAt StepFault.Write (W.faults out.old) (W.faults out.new) result }
    ensures sure { W.sure out.new ≡ W.sure out.old }
{
    for (test, body) in arms {
        if holds(alloc, machine, test)? {
            exec_all(alloc, machine, body, out)?;
            return Ok(true);
        }
    }
    Ok(false)
}

/// Does a block for each entry, which the variable has meanwhile.
#[cycle(exec)]
fn repeat<W: Sink>(
    alloc: Global,
    machine: &mut Machine,
    body: &[Stmt],
    name: &Bytes,
    entries: &[Value],
    out: &mut W,
) -> Result<(), StepFault>
    requires parameters { (state_of machine.old).parameters ≡ [] }
    requires known { AllKnownIn (named (state_of machine.old).names) entries.now }
    ensures done { Executed result (state_of machine.old) (state_of machine.new) (W.taken out.old) (W.taken out.new) (over (λ e. sets name.now e (meaning_of_all (block_of body.now))) (plain_of_all (named (state_of machine.old).names) entries.now)) }
    ensures cause { HasCauseAt StepFault.Write (W.faults out.old) (W.faults out.new) result }
    ensures sure { W.sure out.new ≡ W.sure out.old }
{
    for entry in entries {
        machine.set(alloc, name, try_clone(entry, alloc)?)?;
        exec_all(alloc, machine, body, out)?;
    }
    Ok(())
}

/// Does a block for each integer of a range, which the variable has meanwhile.
#[cycle(exec)]
fn count_up<W: Sink>(
    alloc: Global,
    machine: &mut Machine,
    body: &[Stmt],
    name: &Bytes,
    range: Range,
    out: &mut W,
) -> Result<(), StepFault>
    requires parameters { (state_of machine.old).parameters ≡ [] }
    requires range { IsRange range }
    ensures done { Executed result (state_of machine.old) (state_of machine.new) (W.taken out.old) (W.taken out.new) (over (λ e. sets name.now e (meaning_of_all (block_of body.now))) (integers_from range.first range.count)) }
    ensures cause { HasCauseAt StepFault.Write (W.faults out.old) (W.faults out.new) result }
    ensures sure { W.sure out.new ≡ W.sure out.old }
{
    for i in 0..range.count {
        machine.set_integer(alloc, name, range.first + i as i64)?;
        exec_all(alloc, machine, body, out)?;
    }
    Ok(())
}

/// Gives a variable the value of an expression.
fn assign(alloc: Global, machine: &mut Machine, name: &Bytes, e: &Expr) -> Result<(), StepFault>
    requires { (state_of machine.old).parameters ≡ [] }
    ensures done { (taken : Option (List ℕ)) → Executed result (state_of machine.old) (state_of machine.new) taken taken (meaning (assigning name.now (tree_of e.now))) }
    ensures kind { IfErr result IsInside }
{
    if let Some(z) = integer(machine, e) {
        machine.set_integer(alloc, name, z)?;
        return Ok(());
    }
    let variable = name.as_slice();
    if let Some(others) = others_onto(variable, e) {
        return grow(alloc, machine, variable, others);
    }
    let value = eval(alloc, machine, e)?;
    machine.set(alloc, name, value)?;
    Ok(())
}

/// Whether a condition is true.
fn holds(alloc: Global, machine: &mut Machine, test: &Expr) -> Result<bool, CallFault>
    ensures { Evaluates itself no_semigroup result (state_of machine.old) (state_of machine.new) (λ names. held (state_of machine.old).parameters (tree_of test.now)) }
{
    decide(&eval(alloc, machine, test)?)
}

/// The entries of a list.
fn list_of(alloc: Global, machine: &mut Machine, e: &Expr) -> Result<Sequence, CallFault>
    ensures { Evaluates entries_in are_known result (state_of machine.old) (state_of machine.new) (λ names. listed_of (state_of machine.old).parameters (tree_of e.now)) }
{
    if let Expr::Span(low, high) = e {
        let a = eval(alloc, machine, low)?;
        let b = eval(alloc, machine, high)?;
        return range(&a, &b);
    }
    let value = eval(alloc, machine, e)?;
    Ok(Sequence::Listed(entries(value)?))
}

/// Whether the name stands for the statement that prints.
fn is_print(name: &[u8]) -> bool
    ensures { result ≡ is_print (word_named name.now) }
{
    match word_named(name) {
        Some(Word::Print) => true,
        Some(Word::Arrow(_)) | Some(Word::Command(_)) | None => false,
    }
}

/// The arguments of a call of `Print`.
fn printed_arguments(e: &Expr) -> Option<&[Arg]>
    ensures { MatchOption result (printed_arguments (tree_of e.now) ≡ None) (λ args. printed_arguments (tree_of e.now) ≡ Some (arguments_of args.now)) }
{
    match e {
        Expr::Call(name, args) => {
            if is_print(name.as_slice()) {
                return Some(args.as_slice());
            }
            None
        }
        _ => None,
    }
}

/// Prints, or computes a value and drops it.
fn perform<W: Sink>(
    alloc: Global,
    machine: &mut Machine,
    e: &Expr,
    out: &mut W,
) -> Result<(), StepFault>
    requires { (state_of machine.old).parameters ≡ [] }
    ensures done { Executed result (state_of machine.old) (state_of machine.new) (W.taken out.old) (W.taken out.new) (done (tree_of e.now)) }
    ensures cause { HasCauseAt StepFault.Write (W.faults out.old) (W.faults out.new) result }
    ensures sure { W.sure out.new ≡ W.sure out.old }
{
    if let Some(args) = printed_arguments(e) {
        return print(alloc, machine, args, out);
    }
    eval(alloc, machine, e)?;
    Ok(())
}

/// Writes the texts of all arguments at once, when all are there.
fn print<W: Sink>(
    alloc: Global,
    machine: &mut Machine,
    args: &[Arg],
    out: &mut W,
) -> Result<(), StepFault>
    requires { (state_of machine.old).parameters ≡ [] }
    ensures done { Executed result (state_of machine.old) (state_of machine.new) (W.taken out.old) (W.taken out.new) (print_done (arguments_of args.now)) }
    ensures cause { HasCauseAt StepFault.Write (W.faults out.old) (W.faults out.new) result }
    ensures sure { W.sure out.new ≡ W.sure out.old }
{
    match given(alloc, machine, args)? {
        Some(values) => {
            let text = machine.texts(alloc, &values)?;
            write_text(out, &text)
        }
        None => Err(StepFault::Script(Fault::WrongType)),
    }
}

/// Writes a text.
fn write_text<W: Sink>(out: &mut W, text: &Bytes) -> Result<(), StepFault>
    ensures all { OnOk result (W.taken out.new ≡ append_known (W.taken out.old) text.now) }
    ensures front { AppendsFront (W.taken out.old) (W.taken out.new) text.now }
    ensures kind { IfErr result IsOutside }
    ensures cause { HasCauseAt StepFault.Write (W.faults out.old) (W.faults out.new) result }
    ensures sure { W.sure out.new ≡ W.sure out.old }
{
    match write_whole(out, text.as_slice()) {
        Ok(()) => Ok(()),
        Err(SinkFault::Failed) => Err(StepFault::Write),
        Err(SinkFault::Memory) => Err(StepFault::Memory),
    }
}
