//! Betti elements and minimal presentations of a numerical semigroup.
//!
//! Contracts see a `Table` as its minimal generators, and a `Presentation` as a list of relations; the definitions are
//! those of `sg_nonunique`, over all factorizations of all elements. The contracts that the layer above uses:
//! `components` gives the graph of an element, whose components are the classes, `betti_elements` the elements with two
//! classes, and `presentation` the canonical list of relations, which joins any two factorizations of every element and
//! of which none can be left out. No class is listed for it.
//!
//! The laws are instances of the inductions of `sg_laws_families`.
#![tactic(auto)]

mod canonical;
mod elements;
mod graph;
pub mod laws;
mod limits;
mod relation;
mod search;

pub use canonical::presentation;
pub use elements::betti_elements;
pub use graph::components;
pub use limits::{PRESENTATION_SPAN_LIMIT, is_presentable};
pub use relation::{Presentation, Relation};
