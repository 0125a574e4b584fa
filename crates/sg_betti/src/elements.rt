//! The Betti elements.

ghost use Rattle.std.specs.Prelude.{◌≡◌, ◌+◌, ◌<◌, ◌≤◌, ◌↔◌, ◌⊎◌, ◌^◌, ℕ, All, length, slice_index, Contains, IfOk, OnOk};
ghost use Rattle.sg_defs.specs.Listings.{Lists};
ghost use Rattle.sg_defs.specs.Membership.{IsFactorization, IsMember, IsNumericalSemigroup};
ghost use Rattle.sg_nonunique.specs.Classes.{HasTwoClasses};
ghost use Rattle.sg_betti.specs.Sums.{IsFree, IsFreeSum};

use crate::search::{Search, is_vertex};
use sg_apery::Table;
use sg_nat::Nats;
use std::alloc::{AllocError, Global};

/// One more than the last place whose generator is added to an element: the first, other than 0, whose generator can be
/// taken from it while an element is left. A place behind is linked with this one, and so is not the first of its class.
fn end_place(t: &Table, rest: u64) -> usize
    ensures some { 0 < result }
    ensures inside { result ≤ length t.now }
    ensures exactly { (j : ℕ) → 0 < j → j < length t.now → j < result ↔ IsFree t.now rest j }
{
    let places = t.generators().len();
    for place in 1..places {
        if is_vertex(t, rest, place as u64) {
            return place + 1;
        }
    }
    places
}

/// Adds the sums of an element and a later generator that have two classes.
fn add_sums(
    t: &Table,
    generators: &[u64],
    rest: u64,
    search: &mut Search,
    found: &mut Vec<u64>,
) -> Result<(), AllocError>
    requires same { generators.now ≡ t.now }
    requires semigroup { IsNumericalSemigroup t.now }
    requires member { IsMember t.now rest }
    requires small { (j : ℕ) → j < length t.now → rest + slice_index t.now j < 2 ^ 63 }
    ensures { OnOk result ((n : ℕ) →
        Contains found.new.items n ↔
        (Contains found.old.items n ⊎ (HasTwoClasses (IsFactorization t.now n) × IsFreeSum t.now rest n))) }
{
    let end = end_place(t, rest);
    for place in 1..end {
        let n = rest + generators[place];
        search.run(t, n, place as u64)?;
        if !search.reached_all() {
            found.push(n)?;
        }
    }
    Ok(())
}

/// The Betti elements, ascending: the elements with two factorizations that are not in one class (Rosales and
/// Garcia-Sanchez, Numerical Semigroups, 2009, chapter 7). Each is the sum of an Apery element and the generator at the
/// first place of a class that lacks place 0, so that only such sums are looked at.
pub fn betti_elements(alloc: Global, t: &Table) -> Result<Nats, AllocError>
    ensures elements { IfOk result (Lists (λ n. HasTwoClasses (IsFactorization t.now n))) }
    ensures small { IfOk result (All (λ n. n < 2 ^ 63)) }
    ensures semigroup { IsNumericalSemigroup t.now }
{
    let generators = t.generators().as_slice();
    let mut search = Search::new(alloc);
    let mut found = Vec::new(alloc);
    for rest in t.apery() {
        add_sums(t, generators, *rest, &mut search, &mut found)?;
    }
    found.sort_unstable();
    found.dedup();
    Nats::from_slice(alloc, &found)
}
