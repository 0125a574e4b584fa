//! Greatest common divisors and least common multiples of lists.

ghost use Rattle.std.specs.Prelude.{◌≡◌, ◌<◌, ◌^◌, ◌↔◌, ℕ, pos, SomeIff, IsTrue, FitsSigned, Contains};
ghost use Rattle.std.specs.Int.{w64};
ghost use Rattle.sg_rows_lists.specs.Integers.{IsGcdOfAll, IsLcmOfAll};
ghost use Rattle.sg_rows_lists.specs.Lists.{a_number};
ghost use Rattle.sg_rows.specs.Made.{Tells};

use sg_nat::{gcd, lcm};
use sg_rows::{CallFault, Fault, Made, integer};

/// The greatest common divisor of the integers, and 0 of none.
fn common_divisor(zs: &[i64]) -> u64
    ensures { IsGcdOfAll zs.now result }
{
    let mut divisor = 0;
    for z in zs {
        divisor = gcd(divisor, z.unsigned_abs());
    }
    divisor
}

/// The natural number in 64 bits with a sign, where it fits.
fn signed(found: Option<u64>) -> Option<i64>
    ensures { (n : ℕ) → SomeIff found (n < 2 ^ 64) n → SomeIff result (FitsSigned w64 (pos n)) (pos n) }
{
    i64::try_from(found?).ok()
}

/// The greatest common divisor, where there is an entry.
pub(crate) fn gcd_of(zs: &[i64]) -> Result<Made, CallFault>
    ensures { Tells result (a_number (IsGcdOfAll zs.now) zs.now) }
{
    if zs.is_empty() {
        return Err(CallFault::Script(Fault::BadArgument));
    }
    integer(signed(Some(common_divisor(zs))))
}

/// The least common multiple of integers other than 0, where it is below 2^64.
fn multiple_of_others(zs: &[i64]) -> Option<u64>
    requires { Contains zs.now (pos 0) → ⊥ }
    ensures { (m : ℕ) → IsLcmOfAll zs.now m → SomeIff result (m < 2 ^ 64) m }
{
    let mut multiple = 1;
    for z in zs {
        multiple = lcm(multiple, z.unsigned_abs())?;
    }
    Some(multiple)
}

/// Whether 0 is an entry.
fn has_zero(zs: &[i64]) -> bool
    ensures { IsTrue result ↔ Contains zs.now (pos 0) }
{
    zs.contains(&0)
}

/// The least common multiple of the integers, where it is below 2^64: it is 0 where an entry is, however large the
/// others.
fn common_multiple(zs: &[i64]) -> Option<u64>
    ensures { (m : ℕ) → IsLcmOfAll zs.now m → SomeIff result (m < 2 ^ 64) m }
{
    if has_zero(zs) {
        return Some(0);
    }
    multiple_of_others(zs)
}

/// The least common multiple, where there is an entry.
pub(crate) fn lcm_of(zs: &[i64]) -> Result<Made, CallFault>
    ensures { Tells result (a_number (IsLcmOfAll zs.now) zs.now) }
{
    if zs.is_empty() {
        return Err(CallFault::Script(Fault::BadArgument));
    }
    integer(signed(common_multiple(zs)))
}
