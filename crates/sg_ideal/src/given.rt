//! What is asked of given generators.

ghost use Rattle.std.specs.Prelude.{◌≡◌, [], ◌↔◌, IsTrue, MatchBool, MatchOption};
ghost use Rattle.sg_ideal.specs.Value.{IsLeast};
ghost use Rattle.sg_lawful.specs.Generators.{AreSmall, HasLarge, IsSmall};

use sg_lawful::IDEAL_GENERATOR_LIMIT;

/// Whether a number's absolute value is below the limit.
pub(crate) fn is_small(x: i64) -> bool
    ensures { IsTrue result ↔ IsSmall x }
{
    -IDEAL_GENERATOR_LIMIT < x && x < IDEAL_GENERATOR_LIMIT
}

/// Whether each number's absolute value is below the limit.
pub(crate) fn are_small(numbers: &[i64]) -> bool
    ensures { MatchBool result (AreSmall numbers.now) (HasLarge numbers.now) }
{
    for number in numbers {
        if !is_small(*number) {
            return false;
        }
    }
    true
}

/// The least number, or None where there is none.
pub(crate) fn least(numbers: &[i64]) -> Option<i64>
    ensures { MatchOption result (numbers.now ≡ []) (IsLeast numbers.now) }
{
    if numbers.is_empty() {
        return None;
    }
    let mut least = numbers[0];
    for number in numbers {
        if *number < least {
            least = *number;
        }
    }
    Some(least)
}
