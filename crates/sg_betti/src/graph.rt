//! The components of the graph of the places of an element.

ghost use Rattle.std.specs.Prelude.{◌<◌, ◌↔◌, length, Contains, IsTrue, MatchBool, IfOk};
ghost use Rattle.sg_defs.specs.Listings.{Lists};
ghost use Rattle.sg_defs.specs.Membership.{IsFactorization};
ghost use Rattle.sg_laws_families.specs.PlaceGraph.{AreConnected, IsVertex};
ghost use Rattle.sg_betti.specs.Components.{AreClassRows, AreComponents, IsInSomeRow};

use crate::search::{Search, is_vertex};
use sg_apery::Table;
use sg_nat::{Nats, Rows};
use std::alloc::{AllocError, Global};

/// The places that are connected with one, ascending.
fn component(alloc: Global, t: &Table, n: u64, root: u64) -> Result<Nats, AllocError>
    requires { IsVertex (IsFactorization t.now n) root }
    ensures { IfOk result (Lists (AreConnected (IsFactorization t.now n) root)) }
{
    let mut search = Search::new(alloc);
    search.run(t, n, root)?;
    let mut row = search.reached;
    row.sort_unstable();
    row.dedup();
    Nats::from_slice(alloc, &row)
}

/// Whether a place is in the row.
fn has_place(row: &[u64], place: u64) -> bool
    ensures { IsTrue result ↔ Contains row.now place }
{
    row.contains(&place)
}

/// Whether a place is in none of the rows.
fn is_missing(rows: &Rows, place: u64) -> bool
    ensures { MatchBool result (¬ IsInSomeRow rows.now place) (IsInSomeRow rows.now place) }
{
    for row in rows.as_slice() {
        if has_place(row.as_slice(), place) {
            return false;
        }
    }
    true
}

/// Whether a place is one of the graph, and in none of the rows.
fn is_new(t: &Table, n: u64, rows: &Rows, place: u64) -> bool
    requires { place < length t.now }
    ensures { MatchBool result (IsVertex (IsFactorization t.now n) place × ¬ IsInSomeRow rows.now place)
        (IsVertex (IsFactorization t.now n) place → IsInSomeRow rows.now place) }
{
    is_vertex(t, n, place) && is_missing(rows, place)
}

/// The components of the graph of an element: its vertices are the places whose generator can be taken from `n` while an
/// element is left, and an edge joins two places whose generators can be taken together. Places count from 0; each
/// component is ascending, and that with the lesser first place comes first. For `n` above 0 they stand for the classes
/// of factorizations of `n` (Rosales and Garcia-Sanchez, Numerical Semigroups, 2009, chapter 7): two factorizations are
/// in one class exactly where their positive places are in one component.
pub fn components(alloc: Global, t: &Table, n: u64) -> Result<Rows, AllocError>
    ensures components { IfOk result (AreComponents (IsFactorization t.now n)) }
    ensures classes { 0 < n → IfOk result (AreClassRows (IsFactorization t.now n)) }
{
    let mut rows = Rows::new(alloc);
    let places = t.generators().len() as u64;
    for root in 0..places {
        if is_new(t, n, &rows, root) {
            let row = component(alloc, t, n, root)?;
            rows.push(row)?;
        }
    }
    Ok(rows)
}
