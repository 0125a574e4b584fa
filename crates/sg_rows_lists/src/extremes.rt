//! Greatest and least entries.

ghost use Rattle.std.specs.Prelude.{◌≡◌, [], MatchOption};
ghost use Rattle.sg_rows_lists.specs.Integers.{IsGreatest, IsLeast};
ghost use Rattle.sg_rows.specs.Made.{Tells};
ghost use Rattle.sg_rows.specs.Values.{an_entry};

use sg_rows::{CallFault, Fault, Made};

/// The greatest of the integers.
fn greatest(zs: &[i64]) -> Option<i64>
    ensures { MatchOption result (zs.now ≡ []) (IsGreatest zs.now) }
{
    zs.iter().copied().max()
}

/// The greatest of the integers, where there is an entry.
pub(crate) fn maximum_of(zs: &[i64]) -> Result<Made, CallFault>
    ensures { Tells result (an_entry (IsGreatest zs.now) zs.now) }
{
    match greatest(zs) {
        Some(z) => Ok(Made::Integer(z)),
        None => Err(CallFault::Script(Fault::BadArgument)),
    }
}

/// The least of the integers.
fn least(zs: &[i64]) -> Option<i64>
    ensures { MatchOption result (zs.now ≡ []) (IsLeast zs.now) }
{
    zs.iter().copied().min()
}

/// The least of the integers, where there is an entry.
pub(crate) fn minimum_of(zs: &[i64]) -> Result<Made, CallFault>
    ensures { Tells result (an_entry (IsLeast zs.now) zs.now) }
{
    match least(zs) {
        Some(z) => Ok(Made::Integer(z)),
        None => Err(CallFault::Script(Fault::BadArgument)),
    }
}
