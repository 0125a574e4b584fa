//! What rows make.

ghost use Rattle.std.specs.Prelude.{◌≡◌, ◌<◌, ◌^◌, ℤ, SomeIff, FitsSigned};
ghost use Rattle.std.specs.Int.{w64};
ghost use Rattle.sg_rows.specs.Made.{IsSound, Tells, datum};
ghost use Rattle.sg_rows.specs.Values.{answers, quotient};
ghost use Rattle.sg_value.specs.Data.{int};

use crate::fault::{CallFault, Fault};
use sg_nat::{Ints, ListOf, Nats, Ratio, Rows};

/// What a row made, before it is in any store. Contracts see it as the plain value that it is (`specs/Made`).
#[derive(Drop)]
pub enum Made {
    /// An integer.
    Integer(i64),
    /// A natural, which is below 2^63.
    Natural(u64),
    /// A truth value.
    Truth(bool),
    /// A fraction in lowest terms, whose denominator is above 1.
    Ratio(Ratio),
    /// That there is no value of the kind that is asked for.
    Fail,
    /// A list of integers.
    Integers(Ints),
    /// A list of naturals below 2^63.
    Naturals(Nats),
    /// A list of vectors of naturals below 2^63.
    Vectors(Rows),
    /// A list of lists of vectors of naturals below 2^63.
    VectorLists(ListOf<Rows>),
    /// A semigroup, by its minimal generators.
    Semigroup(Nats),
    /// A list of semigroups, each by its minimal generators.
    Semigroups(Rows),
    /// A relative ideal, by the minimal generators of its ambient semigroup and by its own.
    Ideal(Nats, Ints),
}

/// The integer, or that it is outside of 64 bits.
pub fn integer(found: Option<i64>) -> Result<Made, CallFault>
    ensures { (z : ℤ) → SomeIff found (FitsSigned w64 z) z → Tells result (answers (λ d. d ≡ int z)) }
{
    match found {
        Some(z) => Ok(Made::Integer(z)),
        None => Err(CallFault::Script(Fault::Overflow)),
    }
}

/// The quotient in lowest terms, which is an integer where its denominator is 1. Its numerator is below 2^63.
pub fn quotient(ratio: Ratio) -> Made
    requires { ratio.num < 2 ^ 63 }
    ensures value { datum result ≡ quotient ratio.num ratio.den }
    ensures sound { IsSound result }
{
    if ratio.den == 1 {
        Made::Natural(ratio.num)
    } else {
        Made::Ratio(ratio)
    }
}
