//! The tame degree, as the row tells it.

ghost use Rattle.std.specs.Prelude.{IsFalse, IsTrue};
ghost use Rattle.sg_rows.specs.Made.{Tells};
ghost use Rattle.sg_rows_tame.specs.Rows.{Checked, IsTameable, tame_row};
ghost use Rattle.sg_tame.specs.Answers.{IsTameAnswer, IsWithinLimit};

use sg_apery::Table;
use sg_rows::{CallFault, Fault, Made};
use sg_tame::{TAME_LIMIT, TameAnswer};

/// Whether the greatest generator and the span together are past the limit of the tame degree.
fn is_past(table: &Table) -> bool
    ensures past { IsTrue result → ¬ IsWithinLimit table.now }
    ensures within { IsFalse result → IsWithinLimit table.now }
{
    let generators = table.generators().as_slice();
    let greatest = generators[generators.len() - 1];
    let span = table.span();
    greatest > TAME_LIMIT || span > TAME_LIMIT - greatest
}

/// The refusal that is told before the tame degree is asked for: a semigroup that is not narrow is TooLarge, and so is
/// one whose greatest generator and span together are past the limit. It takes no memory.
pub fn check(table: &Table) -> Result<(), Fault>
    ensures { Checked result table.now }
{
    if !table.narrow() {
        return Err(Fault::TooLarge);
    }
    if is_past(table) {
        return Err(Fault::TooLarge);
    }
    Ok(())
}

/// The tame degree, where the semigroup is not too large: the least number N such that, wherever a generator can be taken
/// away from an element while an element is left, each factorization of the element is at distance at most N from one that
/// uses the generator (Geroldinger and Halter-Koch, Non-Unique Factorizations, 2006). TooMany where some sum of a generator
/// and of an element of the Apery set of a generator has more factorizations than are compared.
pub fn tell(table: &Table, answer: TameAnswer) -> Result<Made, CallFault>
    requires tameable { IsTameable table.now }
    requires answer { IsTameAnswer table.now answer }
    ensures { Tells result (tame_row table.now) }
{
    // Its contract tells that the generators are minimal and make a numerical semigroup.
    let _generators = table.generators();
    match answer {
        TameAnswer::Degree(degree) => Ok(Made::Natural(degree)),
        TameAnswer::TooMany => Err(CallFault::Script(Fault::TooMany)),
    }
}
