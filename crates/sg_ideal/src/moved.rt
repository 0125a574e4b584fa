//! Translates.

ghost use Rattle.std.specs.Prelude.{IfOk, IfErr};
ghost use Rattle.sg_defs.specs.Ideals.{IsInTranslate};
ghost use Rattle.sg_ideal.specs.Faults.{IsSizeFault};
ghost use Rattle.sg_ideal.specs.Value.{IsIdealOf, IsIn};

use crate::fault::IdealFault;
use crate::ideal::Ideal;
use crate::made::from_table;
use std::alloc::Global;

/// The sums of `x` and a member.
///
/// TooLarge where a minimal generator's absolute value is `IDEAL_GENERATOR_LIMIT` or more, and no other fault.
pub fn translate(alloc: Global, x: i64, a: &Ideal) -> Result<Ideal, IdealFault>
    ensures made { IfOk result (IsIdealOf a.now.ambient (IsInTranslate x (IsIn a.now))) }
    ensures refused { IfErr result (IsSizeFault a.now.ambient (IsInTranslate x (IsIn a.now))) }
{
    let entries = a.entries();
    let Some(base) = x.checked_add(a.least()) else {
        return Err(IdealFault::TooLarge);
    };
    from_table(alloc, a.ambient(), base, Vec::from_slice(alloc, entries)?)
}
