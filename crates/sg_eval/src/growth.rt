//! A list that is collected in a variable: `l := Concatenation(l, ..)` puts the new entries behind those that are there.

ghost use Rattle.std.specs.Prelude.{◌≡◌, IsTrue, IfSome, IfErr, ℕ, List, Option, [], slice_get};
ghost use Rattle.sg_tree.specs.Tree.{argument, assign as assigning, variable, plain as plain_argument};
ghost use Rattle.sg_tree.specs.TreeView.{tree_of, argument_of, arguments_of};
ghost use Rattle.sg_meaning.specs.Statements.{exec as meaning};
ghost use Rattle.sg_eval.specs.Growth.{onto};
ghost use Rattle.sg_eval.specs.Machine.{state_of};
ghost use Rattle.sg_eval.specs.Steps.{Executed, IsInside};

use crate::eval::given;
use crate::machine::Machine;
use crate::step_fault::StepFault;
use sg_calls::Fault;
use sg_tree::{Arg, Expr};
use std::alloc::Global;

/// Whether an expression is this name.
fn is_name(name: &[u8], e: &Expr) -> bool
    ensures { IsTrue result → tree_of e.now ≡ variable name.now }
{
    match e {
        Expr::Var(x) => x.as_slice() == name,
        _ => false,
    }
}

/// Whether an argument is this name.
fn is_named(name: &[u8], arg: &Arg) -> bool
    ensures { IsTrue result → argument_of arg.now ≡ plain_argument (variable name.now) }
{
    match arg {
        Arg::Plain(e) => is_name(name, e),
        Arg::Arrow(_, _) => false,
    }
}

/// The arguments after the first, where that is this name.
fn behind<'a>(name: &[u8], args: &'a [Arg]) -> Option<&'a [Arg]>
    ensures { IfSome result (λ others. arguments_of args.now ≡ argument (plain_argument (variable name.now)) (arguments_of others.now)) }
{
    let (first, others) = args.split_first()?;
    if is_named(name, first) {
        return Some(others);
    }
    None
}

/// The other arguments, where an expression is a call of `Concatenation` whose first argument is this name.
pub fn others_onto<'a>(name: &[u8], e: &'a Expr) -> Option<&'a [Arg]>
    ensures { IfSome result (λ others. tree_of e.now ≡ onto name.now (arguments_of others.now)) }
{
    match e {
        Expr::Call(command, args) => {
            if command.as_slice() == b"Concatenation".as_slice() {
                return behind(name, args);
            }
            None
        }
        _ => None,
    }
}

/// Gives a variable the concatenation of its own value and those of the other arguments. The list grows in its place,
/// without a copy of what is there, unless another value shares it.
pub fn grow(
    alloc: Global,
    machine: &mut Machine,
    name: &[u8],
    others: &[Arg],
) -> Result<(), StepFault>
    requires { (state_of machine.old).parameters ≡ [] }
    ensures done { (taken : Option (List ℕ)) → Executed result (state_of machine.old) (state_of machine.new) taken taken (meaning (assigning name.now (onto name.now (arguments_of others.now)))) }
    ensures kind { IfErr result IsInside }
{
    machine.check_named(name)?;
    match given(alloc, machine, others)? {
        Some(lists) => {
            machine.grow(alloc, name, &lists)?;
            Ok(())
        }
        None => Err(StepFault::Script(Fault::WrongType)),
    }
}
