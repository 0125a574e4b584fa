//! The columns of a matrix.

use sg_nat::{Ints, ListOf};

/// The columns of a matrix, from first to last.
pub type Columns = ListOf<Ints>;
