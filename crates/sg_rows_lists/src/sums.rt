//! Sums of lists.

ghost use Rattle.std.specs.Prelude.{◌≡◌, ℤ, SomeIff, FitsSigned};
ghost use Rattle.std.specs.Int.{w64};
ghost use Rattle.sg_rows_lists.specs.Integers.{total};
ghost use Rattle.sg_rows.specs.Made.{Tells};
ghost use Rattle.sg_rows.specs.Values.{answers};
ghost use Rattle.sg_value.specs.Data.{int};

use sg_rows::{CallFault, Made, integer};

/// The sum of the integers: fewer than 2^64 of them, each of 64 bits, stay within 128 bits.
fn total(zs: &[i64]) -> i128
    ensures { result ≡ total zs.now }
{
    let mut sum = 0i128;
    for z in zs {
        sum += i128::from(*z);
    }
    sum
}

/// The same integer in 64 bits, where it fits.
fn narrowed(z: i128) -> Option<i64>
    ensures { SomeIff result (FitsSigned w64 z) z }
{
    i64::try_from(z).ok()
}

/// The sum of the integers. It overflows by the whole sum alone, whatever the sums on the way.
pub(crate) fn sum_of(zs: &[i64]) -> Result<Made, CallFault>
    ensures { Tells result (answers (λ d. d ≡ int (total zs.now))) }
{
    integer(narrowed(total(zs)))
}
