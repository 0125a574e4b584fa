//! The commands on lists and integers, by what they are told of.

ghost use Rattle.std.specs.Prelude.{◌≡◌, Ok, slice_get};
ghost use Rattle.sg_rows_lists.specs.Lists.{named, takes, length_row};
ghost use Rattle.sg_rows.specs.Made.{Tells};
ghost use Rattle.sg_value.specs.Plain.{Named as Names, plain_of_all};

use crate::divisors::{gcd_of, lcm_of};
use crate::extremes::{maximum_of, minimum_of};
use crate::sums::sum_of;
use sg_rows::{CallFault, Made, Named, OfIntegers, find};
use sg_value::Value;
use std::alloc::Global;

/// A command of this crate.
#[derive(Clone, Copy)]
pub enum ListCommand {
    /// Of one list of integers.
    OfList(IntegersFact),
    /// Of integers, as one list or as the arguments.
    OfListOrIntegers(IntegersFact),
    /// The number of entries of one list.
    Length,
    /// The entries of all lists, one list after the other.
    Concatenation,
}

/// The names of all commands of this crate.
static NAMES: [Named<ListCommand>; 7] = [
    Named(b"Concatenation", ListCommand::Concatenation),
    Named(b"Gcd", ListCommand::OfListOrIntegers(IntegersFact::Gcd)),
    Named(b"Lcm", ListCommand::OfListOrIntegers(IntegersFact::Lcm)),
    Named(b"Length", ListCommand::Length),
    Named(b"Maximum", ListCommand::OfList(IntegersFact::Maximum)),
    Named(b"Minimum", ListCommand::OfList(IntegersFact::Minimum)),
    Named(b"Sum", ListCommand::OfList(IntegersFact::Sum)),
];

/// The command of this name.
pub fn named(name: &[u8]) -> Option<ListCommand>
    ensures { result ≡ named name.now }
{
    find(&NAMES, name)
}

/// Whether the command takes so many arguments.
pub fn takes(command: ListCommand, count: usize) -> bool
    ensures { result ≡ takes command count }
{
    match command {
        ListCommand::OfList(_) | ListCommand::Length => count == 1,
        ListCommand::OfListOrIntegers(_) | ListCommand::Concatenation => count >= 1,
    }
}

/// What integers have.
#[derive(Clone, Copy)]
pub enum IntegersFact {
    /// The greatest common divisor, a natural; 0 of zeros alone.
    Gcd,
    /// The least common multiple, a natural; 0 where an entry is 0.
    Lcm,
    /// The greatest entry.
    Maximum,
    /// The least entry.
    Minimum,
    /// The sum, and 0 of none.
    Sum,
}

impl OfIntegers for IntegersFact {
    ghost use Rattle.sg_rows_lists.specs.Lists.{integers_row};

    ghost says = { λ fact zs. integers_row fact zs };

    fn tell(self, _alloc: Global, integers: &[i64]) -> Result<Made, CallFault> {
        match self {
            IntegersFact::Gcd => gcd_of(integers),
            IntegersFact::Lcm => lcm_of(integers),
            IntegersFact::Maximum => maximum_of(integers),
            IntegersFact::Minimum => minimum_of(integers),
            IntegersFact::Sum => sum_of(integers),
        }
    }
}

/// The number of entries of a list.
pub fn length_of(entries: &[Value]) -> Made
    ensures { (names : Names) → Tells (Ok result) (length_row (plain_of_all names entries.now)) }
{
    Made::Natural(entries.len() as u64)
}
