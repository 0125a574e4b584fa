//! The catenary degree of a numerical semigroup and its least and greatest delta, each over all elements.
//!
//! Contracts see a `Table` as its minimal generators, and a `Presentation` as a list of relations; the definitions are
//! those of `sg_nonunique`. `catenary` and `max_delta` look at the Betti elements alone, which they read from the
//! presentation, and `min_delta` at the generators. No factorization is listed: the least lengths of classes and the
//! lengths of elements come from coin tables of `sg_factor`.
//!
//! The laws say why that is enough; they are instances of the inductions of `sg_laws_families`. Terms are those of
//! Geroldinger and Halter-Koch, Non-Unique Factorizations (2006).
#![tactic(auto)]

mod betti;
mod class_lengths;
mod degree;
mod deltas;
pub mod laws;
mod least_delta;

pub use degree::catenary;
pub use deltas::max_delta;
pub use least_delta::{min_delta, min_delta_of};
