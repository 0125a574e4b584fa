//! The canonical minimal presentation.

ghost use Rattle.std.specs.Prelude.{◌≡◌, ◌<◌, ◌+◌, ◌^◌, All, IfOk, MatchOption, OnOk, length, slice_index};
ghost use Rattle.sg_defs.specs.Membership.{IsFactorization, IsMember, IsNumericalSemigroup};
ghost use Rattle.sg_nonunique.specs.Classes.{HasTwoClasses};
ghost use Rattle.sg_nonunique.specs.Places.{raise};
ghost use Rattle.sg_nonunique.specs.Presentations.{AreRelations, IsCanonical, IsLexGreatest, IsNoneSpare, Presents};
ghost use Rattle.sg_laws_families.specs.PlaceGraph.{IsVertex};
ghost use Rattle.sg_betti.specs.Components.{AreComponents};
ghost use Rattle.sg_betti.specs.Raised.{AddsRelations, IsGreatestFrom, head_of};

use crate::elements::betti_elements;
use crate::graph::components;
use crate::relation::{Presentation, Relation};
use sg_apery::Table;
use sg_factor::greatest_factorization;
use sg_nat::Nats;
use std::alloc::{AllocError, Global};

/// A vector with one more at a place.
fn raised(alloc: Global, vector: &Nats, place: usize) -> Result<Nats, AllocError>
    requires place { place < length vector.now }
    requires small { slice_index vector.now place + 1 < 2 ^ 64 }
    ensures { IfOk result (λ high. high ≡ raise vector.now place) }
{
    let mut high = Vec::from_slice(alloc, vector.as_slice())?;
    high[place] += 1;
    Nats::from_slice(alloc, &high)
}

/// The greatest factorization of a natural, and none where it is no element.
fn greatest_of(alloc: Global, t: &Table, n: u64) -> Result<Option<Nats>, AllocError>
    requires { n < 2 ^ 63 }
    ensures { IfOk result (λ found. MatchOption found (¬ IsMember t.now n) (IsLexGreatest (IsFactorization t.now n))) }
{
    greatest_factorization(alloc, t, n as i64)
}

/// The greatest factorization with a positive place, of which it is the first in its class.
fn greatest_from(alloc: Global, t: &Table, n: u64, place: u64) -> Result<Nats, AllocError>
    requires small { n < 2 ^ 63 }
    requires place { IsVertex (IsFactorization t.now n) place }
    ensures { IfOk result (IsGreatestFrom t.now n place) }
{
    let generators = t.generators().as_slice();
    let rest = n - generators[place as usize];
    match greatest_of(alloc, t, rest)? {
        Some(vector) => raised(alloc, &vector, place as usize),
        None => unreachable!(),
    }
}

/// The first place of a component.
fn first_place(row: &Nats) -> u64
    requires { 0 < length row.now }
    ensures { result ≡ slice_index row.now 0 }
{
    row.as_slice()[0]
}

/// The first place of one of the components.
fn head(rows: &[Nats], k: usize) -> u64
    requires inside { k < length rows.now }
    requires not_empty { All (λ r. 0 < length r) rows.now }
    ensures { result ≡ head_of rows.now k }
{
    first_place(&rows[k])
}

/// Adds the relations of a Betti element between its greatest factorization and that of each class but the first.
fn add_pairs(
    alloc: Global,
    t: &Table,
    n: u64,
    rows: &[Nats],
    left: &Nats,
    list: &mut Presentation,
) -> Result<(), AllocError>
    requires semigroup { IsNumericalSemigroup t.now }
    requires small { n < 2 ^ 63 }
    requires betti { HasTwoClasses (IsFactorization t.now n) }
    requires components { AreComponents (IsFactorization t.now n) rows.now }
    requires root { IsGreatestFrom t.now n (head_of rows.now 0) left.now }
    ensures { OnOk result (AddsRelations (IsFactorization t.now) n list.old list.new) }
{
    for k in 1..rows.len() {
        let place = head(rows, k);
        let right = greatest_from(alloc, t, n, place)?;
        let same = left.try_clone()?;
        list.push(Relation {
            value: n,
            left: same,
            right,
        })?;
    }
    Ok(())
}

/// Adds the relations of a Betti element: the greatest factorization of all with that of each other class.
fn add_relations(
    alloc: Global,
    t: &Table,
    n: u64,
    list: &mut Presentation,
) -> Result<(), AllocError>
    requires semigroup { IsNumericalSemigroup t.now }
    requires small { n < 2 ^ 63 }
    requires betti { HasTwoClasses (IsFactorization t.now n) }
    ensures { OnOk result (AddsRelations (IsFactorization t.now) n list.old list.new) }
{
    let found = components(alloc, t, n)?;
    let rows = found.as_slice();
    let root = head(rows, 0);
    let left = greatest_from(alloc, t, n, root)?;
    add_pairs(alloc, t, n, rows, &left, list)
}

/// The canonical minimal presentation: Betti elements ascending, and at each the greatest factorization with the greatest
/// of each other class, the greater first. It joins any two factorizations of every element, and no relation can be left
/// out (Rosales and Garcia-Sanchez, Numerical Semigroups, 2009, chapter 7).
pub fn presentation(alloc: Global, t: &Table) -> Result<Presentation, AllocError>
    ensures canonical { IfOk result (IsCanonical (◌<◌) (IsFactorization t.now)) }
    ensures relations { IfOk result (AreRelations (IsFactorization t.now)) }
    ensures presents { IfOk result (Presents (IsFactorization t.now)) }
    ensures none_spare { IfOk result (IsNoneSpare (IsFactorization t.now)) }
{
    let elements = betti_elements(alloc, t)?;
    let mut list = Presentation::new(alloc);
    for n in elements.as_slice() {
        add_relations(alloc, t, *n, &mut list)?;
    }
    Ok(list)
}
