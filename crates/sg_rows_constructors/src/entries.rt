//! Integers of a list as naturals.

ghost use Rattle.std.specs.Prelude.{◌≡◌, ◌↔◌, IsTrue, IfOk};
ghost use Rattle.sg_rows_constructors.specs.Integers.{AreNatural, ArePositive, naturals};

use std::alloc::{AllocError, Global};

/// Whether no entry is negative.
pub(crate) fn are_natural(zs: &[i64]) -> bool
    ensures { IsTrue result ↔ AreNatural zs.now }
{
    zs.iter().all(|z| *z >= 0)
}

/// Whether all are positive.
pub(crate) fn are_positive(zs: &[i64]) -> bool
    ensures { IsTrue result ↔ ArePositive zs.now }
{
    zs.iter().all(|z| *z >= 1)
}

/// The integers without their signs.
pub(crate) fn naturals_of(alloc: Global, zs: &[i64]) -> Result<Vec<u64>, AllocError>
    ensures { IfOk result (λ ns. ns.items ≡ naturals zs.now) }
{
    zs.iter().map(|z| z.unsigned_abs()).collect(alloc)
}
