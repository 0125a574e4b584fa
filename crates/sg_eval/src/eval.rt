//! What expressions give.

ghost use Rattle.std.specs.Prelude.{◌≡◌, ◌∷◌, Some, None, MatchOption, IfOk, length, slice_get, ⊤};
ghost use Rattle.sg_value.specs.Known.{named};
ghost use Rattle.sg_value.specs.Plain.{AllKnown, AllKnownIn, plain, plain_of_all, Plain};
ghost use Rattle.sg_tree.specs.TreeView.{tree_of, trees_of, links_of, argument_of, arguments_of};
ghost use Rattle.sg_tree.specs.Tree.{display as displayed, call as called, minus as minus_tree, negation as not_tree};
ghost use Rattle.sg_meaning.specs.Expressions.{eval as meaning, eval_all as meaning_of_all, eval_places, eval_links, eval_given, eval_folding, answered, argument_count};
ghost use Rattle.sg_eval.specs.Folded.{fold_on};
ghost use Rattle.sg_eval.specs.Given.{plain_if, known_if, plain_where, known_where, eval_argument};
ghost use Rattle.sg_value.specs.Data.{none};
ghost use Rattle.sg_eval.specs.Linked.{linked as linked_meaning, placed, compared_with};
ghost use Rattle.sg_eval.specs.Outcomes.{Evaluates, plain_in, known_in};
ghost use Rattle.sg_eval.specs.Machine.{state_of};

use crate::answers::{index, list_of, put, span, text_of};
use crate::folding::{entries_if, finished, gather, goes_on};
use crate::given::with_one;
use crate::integers::{integer, truth};
use crate::links::{ends_chain, operator_of, relation_of, truth_itself};
use crate::machine::Machine;
use crate::signs::{negated, turned};
use sg_calls::{CallFault, Command, Fault, Folding, Operator, Word, takes, word_named};
use sg_nat::Bytes;
use sg_tree::{Arg, Expr, Op};
use sg_value::{Value, try_clone};
use std::alloc::Global;

/// The value of an expression.
#[cycle(eval)]
pub fn eval(alloc: Global, machine: &mut Machine, e: &Expr) -> Result<Value, CallFault>
    ensures { Evaluates plain AllKnown result (state_of machine.old) (state_of machine.new) (λ names. meaning (state_of machine.old).parameters (tree_of e.now)) }
{
    if let Some(z) = integer(machine, e) {
        return Ok(Value::Int(z));
    }
    if let Some(b) = truth(machine, e) {
        return Ok(Value::Bool(b));
    }
    eval_any(alloc, machine, e)
}

/// The value of an expression of any form.
#[inline(never)]
#[cycle(eval)]
fn eval_any(alloc: Global, machine: &mut Machine, e: &Expr) -> Result<Value, CallFault>
    ensures { Evaluates plain AllKnown result (state_of machine.old) (state_of machine.new) (λ names. meaning (state_of machine.old).parameters (tree_of e.now)) }
{
    match e {
        Expr::Int(z) => Ok(Value::Int(*z)),
        Expr::Text(bytes) => Ok(text_of(alloc, bytes)?),
        Expr::Bool(b) => Ok(Value::Bool(*b)),
        Expr::Fail => Ok(Value::Fail),
        Expr::Var(name) => machine.named(alloc, name.as_slice()),
        Expr::Call(name, args) => call(alloc, machine, args, name.as_slice()),
        Expr::Display(entries) => display(alloc, machine, entries),
        Expr::Span(low, high) => {
            let a = eval(alloc, machine, low)?;
            let b = eval(alloc, machine, high)?;
            span(alloc, &a, &b)
        }
        Expr::Item(list, places) => {
            let value = eval_any(alloc, machine, list)?;
            item(alloc, machine, places, value)
        }
        Expr::Minus(count, operand) => minus_of(alloc, machine, operand, *count),
        Expr::Not(count, operand) => not_of(alloc, machine, operand, *count),
        Expr::Chain(first, links) => {
            let value = eval(alloc, machine, first)?;
            chain(alloc, machine, links, value)
        }
        Expr::Compare(relation, left, right) => {
            let a = eval(alloc, machine, left)?;
            compared(alloc, machine, right, relation_of(*relation), &a)
        }
    }
}

/// The value of an expression after so many minus signs.
#[inline(never)]
#[cycle(eval)]
fn minus_of(
    alloc: Global,
    machine: &mut Machine,
    operand: &Expr,
    count: u64,
) -> Result<Value, CallFault>
    ensures { Evaluates plain AllKnown result (state_of machine.old) (state_of machine.new) (λ names. meaning (state_of machine.old).parameters (minus_tree count (tree_of operand.now))) }
{
    negated(count, eval(alloc, machine, operand)?)
}

/// The value of an expression after so many times the word `not`.
#[inline(never)]
#[cycle(eval)]
fn not_of(
    alloc: Global,
    machine: &mut Machine,
    operand: &Expr,
    count: u64,
) -> Result<Value, CallFault>
    ensures { Evaluates plain AllKnown result (state_of machine.old) (state_of machine.new) (λ names. meaning (state_of machine.old).parameters (not_tree count (tree_of operand.now))) }
{
    turned(count, &eval(alloc, machine, operand)?)
}

/// What a call of a command gives.
#[cycle(eval)]
fn call(alloc: Global, machine: &mut Machine, args: &[Arg], name: &[u8]) -> Result<Value, CallFault>
    ensures { Evaluates plain AllKnown result (state_of machine.old) (state_of machine.new) (λ names. meaning (state_of machine.old).parameters (called name.now (arguments_of args.now))) }
{
    match word_named(name) {
        Some(Word::Command(command)) => command_call(alloc, machine, args, command),
        Some(Word::Arrow(fold)) => fold_call(alloc, machine, args, fold),
        Some(Word::Print) => Err(CallFault::Script(Fault::UnknownName)),
        None => Err(CallFault::Script(Fault::UnknownName)),
    }
}

/// What a command of values gives of its arguments.
#[cycle(eval)]
fn command_call(
    alloc: Global,
    machine: &mut Machine,
    args: &[Arg],
    command: Command,
) -> Result<Value, CallFault>
    ensures { Evaluates plain AllKnown result (state_of machine.old) (state_of machine.new) (λ names. answered command (argument_count (arguments_of args.now)) (eval_given (state_of machine.old).parameters (arguments_of args.now))) }
{
    if !takes(command, args.len()) {
        return Err(CallFault::Script(Fault::WrongCount));
    }
    match given(alloc, machine, args)? {
        Some(values) => machine.call(alloc, command, &values),
        None => Err(CallFault::Script(Fault::WrongType)),
    }
}

/// The values of arguments, or none where there is an arrow among them.
#[cycle(eval)]
pub fn given(
    alloc: Global,
    machine: &mut Machine,
    args: &[Arg],
) -> Result<Option<Vec<Value>>, CallFault>
    ensures value { Evaluates plain_where known_where result (state_of machine.old) (state_of machine.new) (λ names. eval_given (state_of machine.old).parameters (arguments_of args.now)) }
    ensures count { IfOk result (λ vs. MatchOption vs ⊤ (λ ws. length ws.items ≡ length args.now)) }
{
    let mut values = Some(Vec::new(alloc));
    for arg in args {
        let found = argument(alloc, machine, arg)?;
        values = with_one(values, found)?;
    }
    Ok(values)
}

/// The value of an argument, or none where it is an arrow.
#[cycle(eval)]
fn argument(alloc: Global, machine: &mut Machine, arg: &Arg) -> Result<Option<Value>, CallFault>
    ensures { Evaluates plain_if known_if result (state_of machine.old) (state_of machine.new) (λ names. eval_argument (state_of machine.old).parameters (argument_of arg.now)) }
{
    match arg {
        Arg::Plain(e) => Ok(Some(eval(alloc, machine, e)?)),
        Arg::Arrow(_, _) => Ok(None),
    }
}

/// The list of the values of expressions.
#[cycle(eval)]
fn display(alloc: Global, machine: &mut Machine, entries: &[Expr]) -> Result<Value, CallFault>
    ensures { Evaluates plain AllKnown result (state_of machine.old) (state_of machine.new) (λ names. meaning (state_of machine.old).parameters (displayed (trees_of entries.now))) }
{
    list_of(alloc, eval_all(alloc, machine, entries)?)
}

/// The values of expressions, in their order.
#[cycle(eval)]
fn eval_all(alloc: Global, machine: &mut Machine, es: &[Expr]) -> Result<Vec<Value>, CallFault>
    ensures { Evaluates plain_in known_in result (state_of machine.old) (state_of machine.new) (λ names. meaning_of_all (state_of machine.old).parameters (trees_of es.now)) }
{
    let mut values = Vec::new(alloc);
    for e in es {
        let value = eval(alloc, machine, e)?;
        put(&mut values, value)?;
    }
    Ok(values)
}

/// The entry by one place after the other.
#[cycle(eval)]
fn item(
    alloc: Global,
    machine: &mut Machine,
    places: &[Expr],
    list: Value,
) -> Result<Value, CallFault>
    requires { AllKnown (named (state_of machine.old).names) list }
    ensures { Evaluates plain AllKnown result (state_of machine.old) (state_of machine.new) (λ names. eval_places (state_of machine.old).parameters (plain names list) (trees_of places.now)) }
{
    let mut value = list;
    for place in places {
        value = item_at(alloc, machine, place, value)?;
    }
    Ok(value)
}

/// What an operator gives of a value and that of an expression.
#[inline(always)]
#[cycle(eval)]
fn compared(
    alloc: Global,
    machine: &mut Machine,
    right: &Expr,
    op: Operator,
    left: &Value,
) -> Result<Value, CallFault>
    requires { AllKnown (named (state_of machine.old).names) left.now }
    ensures { Evaluates plain AllKnown result (state_of machine.old) (state_of machine.new) (λ names. compared_with (state_of machine.old).parameters op (plain names left.now) (tree_of right.now)) }
{
    let b = eval(alloc, machine, right)?;
    machine.combine(alloc, op, left, &b)
}

/// The entry at the place that an expression gives.
#[cycle(eval)]
fn item_at(
    alloc: Global,
    machine: &mut Machine,
    place: &Expr,
    list: Value,
) -> Result<Value, CallFault>
    requires { AllKnown (named (state_of machine.old).names) list }
    ensures { Evaluates plain AllKnown result (state_of machine.old) (state_of machine.new) (λ names. placed (state_of machine.old).parameters (plain names list) (tree_of place.now)) }
{
    let at = eval(alloc, machine, place)?;
    index(alloc, &list, &at)
}

/// The value after the links of a chain.
#[cycle(eval)]
fn chain(
    alloc: Global,
    machine: &mut Machine,
    links: &[(Op, Expr)],
    first: Value,
) -> Result<Value, CallFault>
    requires { AllKnown (named (state_of machine.old).names) first }
    ensures { Evaluates plain AllKnown result (state_of machine.old) (state_of machine.new) (λ names. eval_links (state_of machine.old).parameters (plain names first) (links_of links.now)) }
{
    let mut value = first;
    for (op, operand) in links {
        if ends_chain(*op, &value)? {
            return Ok(value);
        }
        value = linked(alloc, machine, operand, *op, &value)?;
    }
    Ok(value)
}

/// The value after one link.
#[inline(always)]
#[cycle(eval)]
fn linked(
    alloc: Global,
    machine: &mut Machine,
    operand: &Expr,
    op: Op,
    left: &Value,
) -> Result<Value, CallFault>
    requires { AllKnown (named (state_of machine.old).names) left.now }
    ensures { Evaluates plain AllKnown result (state_of machine.old) (state_of machine.new) (λ names. linked_meaning (state_of machine.old).parameters op (tree_of operand.now) (plain names left.now)) }
{
    match operator_of(op) {
        Some(operator) => compared(alloc, machine, operand, operator, left),
        None => truth_itself(eval(alloc, machine, operand)?),
    }
}

/// What a command with an arrow gives of its arguments.
#[cycle(eval)]
fn fold_call(
    alloc: Global,
    machine: &mut Machine,
    args: &[Arg],
    fold: Folding,
) -> Result<Value, CallFault>
    ensures { Evaluates plain AllKnown result (state_of machine.old) (state_of machine.new) (λ names. eval_folding (state_of machine.old).parameters (arguments_of args.now) fold) }
{
    if args.len() != 2 {
        return Err(CallFault::Script(Fault::WrongCount));
    }
    let first = argument(alloc, machine, &args[0])?;
    match &args[1] {
        Arg::Plain(e) => {
            eval(alloc, machine, e)?;
            Err(CallFault::Script(Fault::WrongType))
        }
        Arg::Arrow(parameter, body) => {
            let entries = entries_if(first)?;
            folded(alloc, machine, body, parameter, fold, entries.as_slice())
        }
    }
}

/// What such a command gives of the entries of a list.
#[cycle(eval)]
fn folded(
    alloc: Global,
    machine: &mut Machine,
    body: &Expr,
    parameter: &Bytes,
    fold: Folding,
    entries: &[Value],
) -> Result<Value, CallFault>
    requires { AllKnownIn (named (state_of machine.old).names) entries.now }
    ensures { Evaluates plain AllKnown result (state_of machine.old) (state_of machine.new) (λ names. fold_on fold (λ e. meaning ((parameter.now, e) ∷ (state_of machine.old).parameters) (tree_of body.now)) none (plain_of_all names entries.now)) }
{
    let mut gathered = Vec::new(alloc);
    for entry in entries {
        let value = apply(alloc, machine, body, parameter, entry)?;
        if !goes_on(fold, &value)? {
            return finished(alloc, fold, false, gathered);
        }
        gather(alloc, fold, entry, value, &mut gathered)?;
    }
    finished(alloc, fold, true, gathered)
}

/// The value of an arrow's body at an entry.
#[cycle(eval)]
fn apply(
    alloc: Global,
    machine: &mut Machine,
    body: &Expr,
    parameter: &Bytes,
    entry: &Value,
) -> Result<Value, CallFault>
    requires { AllKnown (named (state_of machine.old).names) entry.now }
    ensures { Evaluates plain AllKnown result (state_of machine.old) (state_of machine.new) (λ names. meaning ((parameter.now, plain names entry.now) ∷ (state_of machine.old).parameters) (tree_of body.now)) }
{
    let copy = try_clone(entry, alloc)?;
    machine.bind(parameter, copy)?;
    let value = eval(alloc, machine, body)?;
    machine.unbind();
    Ok(value)
}
