//! A matrix, with what a search asks of it.

ghost use Rattle.std.specs.Prelude.{◌≡◌, ◌≤◌, ◌<◌, ◌<ℤ◌, ◌↔◌, [], pos, length, slice_index_or, sum, IfOk, IsTrue};
ghost use Rattle.sg_nonunique.specs.Equations.{image_of, inner_product, IsSolution};
ghost use Rattle.sg_atoms.specs.Matrices.{rows_of, IsMatrix};

use crate::columns::Columns;
use crate::products::{products, weight};
use sg_nat::{Entry, Ints};
use std::alloc::{AllocError, Global};
use std::marker::Model;

/// A matrix, which contracts see as the list of its columns. It keeps the inner products of these, which tell those of a
/// vector's image with each column.
#[derive(Drop)]
pub struct Equations {
    columns: Columns,
    products: Columns,
}

impl Model for Equations {
    ghost use Rattle.std.specs.Prelude.{◌≡◌, ℤ, List};
    ghost use Rattle.sg_atoms.specs.Matrices.{IsMatrix, products_of};

    ghost Value = { List (List ℤ) };

    ghost view = { λ e. e.columns };

    ghost invariant = { λ e. IsMatrix e.columns × (e.products ≡ products_of e.columns) };
}

/// A copy of the columns.
fn copied(alloc: Global, columns: &[Ints]) -> Result<Columns, AllocError>
    ensures { IfOk result (λ copy. copy ≡ columns.now) }
{
    let mut copy = Columns::new(alloc);
    for column in columns {
        copy.push(column.try_copy()?)?;
    }
    Ok(copy)
}

impl Equations {
    /// The matrix with these columns.
    pub fn new(alloc: Global, columns: &[Ints]) -> Result<Equations, AllocError>
        requires { IsMatrix columns.now }
        ensures { IfOk result (λ equations. equations ≡ columns.now) }
    {
        Ok(Equations {
            products: products(alloc, columns)?,
            columns: copied(alloc, columns)?,
        })
    }

    /// How many columns there are.
    pub fn places(&self) -> usize
        ensures number { result ≡ length self.now }
        ensures matrix { IsMatrix self.now }
    {
        self.columns.len()
    }

    /// The product of the image of a vector with a column.
    fn product_with_image(&self, p: &[u64], place: usize) -> i64
        requires places { length p.now ≡ length self.now }
        requires short { sum p.now ≤ 1048576 }
        requires place { place < length self.now }
        ensures { result ≡ inner_product (image_of (rows_of self.now) self.now p.now) (slice_index_or self.now place []) }
    {
        let _ = &self.columns;
        weight(self.products.as_slice()[place].as_slice(), p)
    }

    /// Whether the matrix sends a vector to zero: its image is zero where its products with all columns are.
    pub fn is_solution(&self, p: &[u64]) -> bool
        requires places { length p.now ≡ length self.now }
        requires short { sum p.now ≤ 1048576 }
        ensures { IsTrue result ↔ IsSolution (rows_of self.now) self.now p.now }
    {
        for place in 0..self.places() {
            if self.product_with_image(p, place) != 0 {
                return false;
            }
        }
        true
    }

    /// Whether the image of a vector has a negative product with a column: one more at that place leads back towards zero.
    pub fn leads_back(&self, p: &[u64], place: usize) -> bool
        requires places { length p.now ≡ length self.now }
        requires short { sum p.now ≤ 1048576 }
        requires place { place < length self.now }
        ensures { IsTrue result ↔ (inner_product (image_of (rows_of self.now) self.now p.now) (slice_index_or self.now place []) <ℤ pos 0) }
    {
        self.product_with_image(p, place) < 0
    }
}
