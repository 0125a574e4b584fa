//! Runs of digits.

ghost use Rattle.std.specs.Prelude.{◌≡◌};
ghost use Rattle.sg_token.specs.Runs.{number_of};

/// One more than the greatest number.
const LIMIT: u64 = 1 << 63;

/// The value of a run of digits, where it is at most 9223372036854775807.
pub fn number(run: &[u8]) -> Option<i64>
    ensures { result ≡ number_of run.now }
{
    let mut value: u64 = 0;
    for digit in run {
        if !digit.is_ascii_digit() {
            return None;
        }
        value = value
            .saturating_mul(10)
            .saturating_add((*digit - b'0') as u64);
    }
    if value < LIMIT {
        Some(value as i64)
    } else {
        None
    }
}
