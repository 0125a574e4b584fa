//! The step of the machine.

ghost use Rattle.std.specs.Prelude.{◌≡◌};
ghost use Rattle.sg_tree.specs.TreeView.{code_of};
ghost use Rattle.sg_eval.specs.Steps.{is_quit};

use crate::exec::exec;
use crate::machine::Machine;
use crate::step_fault::{Flow, StepFault};
use sg_io::Sink;
use sg_tree::Stmt;
use std::alloc::Global;

/// Whether the statement is `quit`.
fn is_quit(stmt: &Stmt) -> bool
    ensures { result ≡ is_quit (code_of stmt.now) }
{
    match stmt {
        Stmt::Quit => true,
        _ => false,
    }
}

impl Machine {
    ghost use Rattle.std.specs.Prelude.{◌≡◌, List, ℕ};
    ghost use Rattle.std.specs.Io.KnownBytes.{append_known};
    ghost use Rattle.sg_io.specs.Faults.{HasCauseAt};
    ghost use Rattle.sg_store.specs.Interned.{Keeps};
    ghost use Rattle.sg_tree.specs.TreeView.{code_of};
    ghost use Rattle.sg_eval.specs.Machine.{state_of};
    ghost use Rattle.sg_eval.specs.Steps.{Executes};

    /// Does what a statement says. A statement inside a block never ends the run, and a fault of the script undoes
    /// nothing that was done before. The attributes that the statement asks for are asked of the store, in its order, and
    /// no others. `Write` comes only where the sink's count of faults rose in this call, or stands at its last value. After
    /// `Write` or `Memory` the statement was left at some point, and nothing is said of what was asked. What an earlier step
    /// left behind counts for nothing but the values of the variables, and what the store keeps.
    pub fn step<W: Sink>(
        &mut self,
        alloc: Global,
        stmt: &Stmt,
        out: &mut W,
    ) -> Result<Flow, StepFault>
        ensures keeps { Keeps (state_of self.old).names (state_of self.new).names }
        ensures budget { (state_of self.new).budget ≡ (state_of self.old).budget }
        ensures executes { (gained : List ℕ) × (W.taken out.new ≡ append_known (W.taken out.old) gained) × Executes result (code_of stmt.now) (state_of self.old) (state_of self.new) gained }
        ensures cause { HasCauseAt StepFault.Write (W.faults out.old) (W.faults out.new) result }
        ensures sure { W.sure out.new ≡ W.sure out.old }
    {
        self.clear();
        if is_quit(stmt) {
            return Ok(Flow::Quit);
        }
        exec(alloc, self, stmt, out)?;
        Ok(Flow::On)
    }
}
