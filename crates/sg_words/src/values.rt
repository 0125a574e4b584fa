//! The values of options, and FILE.

ghost use Rattle.std.specs.Prelude.{◌≡◌, true, length, ◌≤◌, ◌<◌, option_map, if◌then◌else◌, None, Some};
ghost use Rattle.std.specs.Char.{is_ascii_digit};
ghost use Rattle.std.specs.List.{list_all};
ghost use Rattle.std.specs.Str.Parse.{digits_value};
ghost use Rattle.sg_words.specs.Settings.{fits, is_number, names_file, number_or};

/// The number in a text of one to ten digits, if it lies in the limits.
pub fn number_in(text: &str, least: u64, most: u64) -> Option<u64>
    ensures { result ≡ (if is_number least most text.now then Some (digits_value 10 text.now) else None) }
{
    if text.is_empty() || text.len() > 10 || !is_digits(text.as_bytes()) {
        return None;
    }
    let value = value_of(text);
    (least <= value && value <= most).then_some(value)
}

/// Whether each byte is a digit.
fn is_digits(text: &[u8]) -> bool
    ensures { result ≡ list_all is_ascii_digit text.now }
{
    text.iter().all(|byte| byte.is_ascii_digit())
}

/// The number that a few digits write.
fn value_of(digits: &str) -> u64
    requires some { 0 < length digits.now }
    requires few { length digits.now ≤ 10 }
    requires digits { list_all is_ascii_digit digits.now ≡ true }
    ensures { result ≡ digits_value 10 digits.now }
{
    digits.parse::<u64>().unwrap_or(0)
}

/// The number in a text, if there is one, or the number that stands for none.
pub fn number_or(text: Option<&str>, least: u64, most: u64, absent: u64) -> Option<u64>
    ensures { result ≡ (if fits (is_number least most) (option_map (λ t. t.now) text.entry) then Some (number_or absent (option_map (λ t. t.now) text.entry)) else None) }
{
    match text {
        Some(text) => number_in(text, least, most),
        None => Some(absent),
    }
}

/// Whether a text may be FILE: it is not empty, and neither `-` nor `--`.
pub fn names_file(text: &str) -> bool
    ensures { result ≡ names_file text.now }
{
    !text.is_empty() && text != "-" && text != "--"
}
