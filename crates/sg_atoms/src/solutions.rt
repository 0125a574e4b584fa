//! The minimal solutions, by a search level by level.

ghost use Rattle.std.specs.Prelude.{◌≡◌, ◌≤◌, ◌↔◌, ℕ, List, length, sum, All, Contains, IfOk, IfErr, OnOk};
ghost use Rattle.sg_defs.specs.Vectors.{ListsAscending};
ghost use Rattle.sg_nonunique.specs.Counts.{Exceeds};
ghost use Rattle.sg_nonunique.specs.Equations.{IsAtom, IsGrown, IsSolution};
ghost use Rattle.sg_atoms.specs.Faults.{IsSpent};
ghost use Rattle.sg_atoms.specs.Growth.{Gathers};
ghost use Rattle.sg_atoms.specs.Matrices.{rows_of, IsMatrix};

use crate::ascending::ascending;
use crate::columns::Columns;
use crate::equations::Equations;
use crate::fault::SearchFault;
use crate::level::Level;
use crate::search::next_level;
use crate::units::unit_vectors;
use sg_nat::{Entry, Nats, Rows};
use std::alloc::{AllocError, Global};

/// Puts a vector to the atoms, where it is a solution.
fn note(equations: &Equations, vector: &Nats, atoms: &mut Level) -> Result<(), AllocError>
    requires places { length vector.now ≡ length equations.now }
    requires short { sum vector.now ≤ 1048576 }
    ensures { OnOk result (Gathers (λ q. (q ≡ vector.now) × IsSolution (rows_of equations.now) equations.now q) atoms.old atoms.new) }
{
    if !equations.is_solution(vector.as_slice()) {
        return Ok(());
    }
    let copy = vector.try_copy()?;
    atoms.insert(copy)
}

/// Puts those vectors to the atoms that are solutions.
fn note_solutions(
    equations: &Equations,
    level: &[Nats],
    atoms: &mut Level,
) -> Result<(), AllocError>
    requires places { All (λ p. length p ≡ length equations.now) level.now }
    requires short { All (λ p. sum p ≤ 1048576) level.now }
    ensures { OnOk result (Gathers (λ q. Contains level.now q × IsSolution (rows_of equations.now) equations.now q) atoms.old atoms.new) }
{
    for vector in level {
        note(equations, vector, atoms)?;
    }
    Ok(())
}

/// The atoms, where no more vectors are grown than the budget allows: level by level, as long as there are vectors on it.
fn all_atoms(alloc: Global, equations: &Equations, budget: usize) -> Result<Level, SearchFault>
    requires { budget ≤ 1000000 }
    ensures atoms { IfOk result (λ atoms. (a : List ℕ) → Contains atoms a ↔ IsAtom (rows_of equations.now) equations.now a) }
    ensures within { OnOk result (¬ Exceeds (IsGrown (rows_of equations.now) equations.now) budget) }
    ensures spent { IfErr result (IsSpent (Exceeds (IsGrown (rows_of equations.now) equations.now) budget)) }
{
    let mut atoms = Level::new(alloc);
    let mut level = unit_vectors(alloc, equations.places(), budget)?;
    let first = level.len();
    let mut left = budget - first;
    'levels: while level.len() > 0 {
        note_solutions(equations, level.as_slice(), &mut atoms)?;
        let next = next_level(alloc, equations, atoms.as_slice(), level.as_slice(), left)?;
        let count = next.len();
        left -= count;
        level = next;
    }
    Ok(atoms)
}

/// The minimal solutions of linear equations over the naturals: the atoms of the solutions, ascending lexicographically.
/// The equations are the rows of a matrix, and their right sides are zero. More grown vectors than the budget end the
/// search (Contejean and Devie, An efficient incremental algorithm for solving systems of linear Diophantine equations,
/// 1994).
pub fn least_solutions(alloc: Global, columns: &Columns, budget: u64) -> Result<Rows, SearchFault>
    requires matrix { IsMatrix columns.now }
    requires budget { budget ≤ 1000000 }
    ensures atoms { IfOk result (λ rows. ListsAscending (IsAtom (rows_of columns.now) columns.now) rows) }
    ensures within { OnOk result (¬ Exceeds (IsGrown (rows_of columns.now) columns.now) budget) }
    ensures spent { IfErr result (IsSpent (Exceeds (IsGrown (rows_of columns.now) columns.now) budget)) }
{
    let equations = Equations::new(alloc, columns.as_slice())?;
    let atoms = all_atoms(alloc, &equations, budget as usize)?;
    let rows = ascending(alloc, atoms.as_slice())?;
    Ok(rows)
}
