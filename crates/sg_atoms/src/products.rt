//! Inner products of columns, and their sums.

ghost use Rattle.std.specs.Prelude.{◌≡◌, ◌≤◌, length, sum, IfOk, All};
ghost use Rattle.sg_nonunique.specs.Equations.{inner_product};
ghost use Rattle.sg_atoms.specs.Matrices.{AreWithin, IsMatrix, products_of, products_with, weighted};

use crate::columns::Columns;
use sg_nat::Ints;
use std::alloc::{AllocError, Global};

/// x1 y1 + .. + xk yk.
fn product(x: &[i64], y: &[i64]) -> i64
    requires places { length x.now ≡ length y.now }
    requires short { length x.now ≤ 8 }
    requires first { AreWithin 65535 x.now }
    requires second { AreWithin 65535 y.now }
    ensures { result ≡ inner_product x.now y.now }
{
    let mut total = 0;
    for place in 0..x.len() {
        total += x[place] * y[place];
    }
    total
}

/// The products of one column with each.
fn row_of_products(alloc: Global, columns: &[Ints], column: &[i64]) -> Result<Ints, AllocError>
    requires places { All (λ c. length column.now ≡ length c) columns.now }
    requires short { length column.now ≤ 8 }
    requires first { AreWithin 65535 column.now }
    requires small { All (AreWithin 65535) columns.now }
    ensures { IfOk result (λ row. row ≡ products_with columns.now column.now) }
{
    let mut row = Ints::new(alloc);
    for other in columns {
        row.push(product(column, other.as_slice()))?;
    }
    Ok(row)
}

/// The products of each column with each.
pub fn products(alloc: Global, columns: &[Ints]) -> Result<Columns, AllocError>
    requires { IsMatrix columns.now }
    ensures { IfOk result (λ rows. rows ≡ products_of columns.now) }
{
    let mut rows = Columns::new(alloc);
    for column in columns {
        rows.push(row_of_products(alloc, columns, column.as_slice())?)?;
    }
    Ok(rows)
}

/// p1 x1 + .. + pk xk.
pub fn weight(row: &[i64], p: &[u64]) -> i64
    requires places { length row.now ≡ length p.now }
    requires small { AreWithin 34359738368 row.now }
    requires short { sum p.now ≤ 1048576 }
    ensures { result ≡ weighted row.now p.now }
{
    let mut total = 0;
    for place in 0..row.len() {
        total += p[place] as i64 * row[place];
    }
    total
}
