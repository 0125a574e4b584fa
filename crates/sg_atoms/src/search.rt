//! The search, level by level: each level has the grown vectors of one length.

ghost use Rattle.std.specs.Prelude.{◌≡◌, ◌≤◌, ◌<◌, ◌+◌, ◌^◌, ◌↔◌, ◌⊎◌, [], ℕ, List, length, sum, slice_index, All, Contains, IfOk, IfErr, OnOk, IsTrue};
ghost use Rattle.sg_nonunique.specs.Counts.{Exceeds};
ghost use Rattle.sg_nonunique.specs.Places.{raise};
ghost use Rattle.sg_atoms.specs.Faults.{IsSpent};
ghost use Rattle.sg_atoms.specs.Growth.{Gathers, IsFree, IsGrowth, IsGrowthAt, IsGrowthOf};

use crate::equations::Equations;
use crate::fault::SearchFault;
use crate::level::Level;
use sg_nat::{Nats, dominates};
use std::alloc::{AllocError, Global};

/// The vector with one more at a place.
fn raised(alloc: Global, vector: &[u64], place: usize) -> Result<Nats, AllocError>
    requires place { place < length vector.now }
    requires small { slice_index vector.now place + 1 < 2 ^ 64 }
    ensures { IfOk result (λ high. high ≡ raise vector.now place) }
{
    let mut entries = Vec::from_slice(alloc, vector)?;
    entries[place] += 1;
    Nats::from_slice(alloc, &entries)
}

/// Whether no atom lies below a vector.
fn is_clear(atoms: &[Nats], vector: &[u64]) -> bool
    requires { All (λ a. length vector.now ≡ length a) atoms.now }
    ensures { IsTrue result ↔ IsFree atoms.now vector.now }
{
    for atom in atoms {
        if dominates(vector, atom.as_slice()) {
            return false;
        }
    }
    true
}

/// Puts what a vector grows to at one place into the next level, as far as there is room.
fn grow_at(
    alloc: Global,
    equations: &Equations,
    atoms: &[Nats],
    vector: &[u64],
    place: usize,
    next: &mut Level,
    room: usize,
) -> Result<(), SearchFault>
    requires places { length vector.now ≡ length equations.now }
    requires short { sum vector.now ≤ 1048576 }
    requires place { place < length equations.now }
    requires atoms { All (λ a. length vector.now ≡ length a) atoms.now }
    requires within { length next.old ≤ room }
    ensures grown { OnOk result (Gathers (IsGrowthAt equations.now atoms.now vector.now place) next.old next.new) }
    ensures within { OnOk result (length next.new ≤ room) }
    ensures spent { IfErr result (IsSpent (Exceeds (λ q. Contains next.old q ⊎ IsGrowthAt equations.now atoms.now vector.now place q) room)) }
{
    if !equations.leads_back(vector, place) {
        return Ok(());
    }
    let longer = raised(alloc, vector, place)?;
    if !is_clear(atoms, longer.as_slice()) {
        return Ok(());
    }
    next.insert_within(longer, room)
}

/// Puts what a vector grows to into the next level, as far as there is room. A solution grows to nothing.
fn grow(
    alloc: Global,
    equations: &Equations,
    atoms: &[Nats],
    vector: &[u64],
    next: &mut Level,
    room: usize,
) -> Result<(), SearchFault>
    requires places { length vector.now ≡ length equations.now }
    requires short { sum vector.now ≤ 1048576 }
    requires atoms { All (λ a. length vector.now ≡ length a) atoms.now }
    requires within { length next.old ≤ room }
    ensures grown { OnOk result (Gathers (IsGrowth equations.now atoms.now vector.now) next.old next.new) }
    ensures within { OnOk result (length next.new ≤ room) }
    ensures spent { IfErr result (IsSpent (Exceeds (λ q. Contains next.old q ⊎ IsGrowth equations.now atoms.now vector.now q) room)) }
{
    for place in 0..equations.places() {
        grow_at(alloc, equations, atoms, vector, place, next, room)?;
    }
    Ok(())
}

/// The level after one, as far as there is room.
pub fn next_level(
    alloc: Global,
    equations: &Equations,
    atoms: &[Nats],
    level: &[Nats],
    room: usize,
) -> Result<Level, SearchFault>
    requires places { All (λ p. length p ≡ length equations.now) level.now }
    requires short { All (λ p. sum p ≤ 1048576) level.now }
    requires atoms { All (λ a. length a ≡ length equations.now) atoms.now }
    ensures grown { IfOk result (λ next. (q : List ℕ) → Contains next q ↔ IsGrowthOf equations.now atoms.now level.now q) }
    ensures within { IfOk result (λ next. length next ≤ room) }
    ensures spent { IfErr result (IsSpent (Exceeds (IsGrowthOf equations.now atoms.now level.now) room)) }
{
    let mut next = Level::new(alloc);
    for vector in level {
        grow(alloc, equations, atoms, vector.as_slice(), &mut next, room)?;
    }
    Ok(next)
}
