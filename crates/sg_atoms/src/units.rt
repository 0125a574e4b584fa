//! The first level of a search: the unit vectors.

ghost use Rattle.std.specs.Prelude.{◌≡◌, ◌≤◌, ◌<◌, ◌↔◌, ℕ, List, length, Contains, IfOk, IfErr};
ghost use Rattle.sg_nonunique.specs.Counts.{Exceeds};
ghost use Rattle.sg_nonunique.specs.Places.{unit};
ghost use Rattle.sg_atoms.specs.Faults.{IsSpent};
ghost use Rattle.sg_atoms.specs.Growth.{IsUnitBefore};

use crate::fault::SearchFault;
use crate::level::Level;
use sg_nat::Nats;
use std::alloc::{AllocError, Global};

/// The vector with one at a place and zero at the others.
fn unit_vector(alloc: Global, places: usize, place: usize) -> Result<Nats, AllocError>
    requires { place < places }
    ensures { IfOk result (λ vector. vector ≡ unit places place) }
{
    let mut entries = vec![in alloc; 0u64; places]?;
    entries[place] = 1;
    Nats::from_slice(alloc, &entries)
}

/// The unit vectors, as far as there is room.
pub fn unit_vectors(alloc: Global, places: usize, room: usize) -> Result<Level, SearchFault>
    ensures units { IfOk result (λ level. (q : List ℕ) → Contains level q ↔ IsUnitBefore places places q) }
    ensures within { IfOk result (λ level. length level ≤ room) }
    ensures spent { IfErr result (IsSpent (Exceeds (IsUnitBefore places places) room)) }
{
    let mut level = Level::new(alloc);
    for place in 0..places {
        let vector = unit_vector(alloc, places, place)?;
        level.insert_within(vector, room)?;
    }
    Ok(level)
}
