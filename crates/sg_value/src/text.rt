//! The parts of printed text that hold no value. Each call puts its text at the end of `out`, and where it is refused
//! memory a front of it.

ghost use Rattle.std.specs.Fmt.{signed_decimal};
ghost use Rattle.std.specs.Prelude.{◌++◌, decimal, flat_map, map};
ghost use Rattle.sg_value.specs.Text.{Adds, escaped, quoted, joined, separator, numbers_text, integers_text, ideal_text, ratio_text, semigroup_text};

use itoa::Buffer;
use sg_nat::Bytes;
use std::alloc::AllocError;

/// The bytes.
pub fn add(bytes: &[u8], out: &mut Bytes) -> Result<(), AllocError>
    ensures { Adds result out.old out.new bytes.now }
{
    out.extend_from_slice(bytes)
}

/// What stands before the entry of a list with this index.
pub fn add_separator(index: usize, out: &mut Bytes) -> Result<(), AllocError>
    ensures { Adds result out.old out.new (separator index) }
{
    if index == 0 {
        return Ok(());
    }
    add(b", ", out)
}

/// The number in decimal.
fn add_number(number: u64, out: &mut Bytes) -> Result<(), AllocError>
    ensures { Adds result out.old out.new (decimal number) }
{
    add(Buffer::new().format(number).as_bytes(), out)
}

/// The fraction.
pub fn add_ratio(num: u64, den: u64, out: &mut Bytes) -> Result<(), AllocError>
    ensures { Adds result out.old out.new (ratio_text num den) }
{
    add_number(num, out)?;
    add(b"/", out)?;
    add_number(den, out)
}

/// The text in quotes.
pub fn add_quoted(text: &[u8], out: &mut Bytes) -> Result<(), AllocError>
    ensures { Adds result out.old out.new (quoted text.now) }
{
    add(b"\"", out)?;
    add_escaped(text, out)?;
    add(b"\"", out)
}

fn add_escaped(text: &[u8], out: &mut Bytes) -> Result<(), AllocError>
    ensures { Adds result out.old out.new (flat_map escaped text.now) }
{
    for byte in text {
        add_escaped_byte(*byte, out)?;
    }
    Ok(())
}

fn add_escaped_byte(byte: u8, out: &mut Bytes) -> Result<(), AllocError>
    ensures { Adds result out.old out.new (escaped byte) }
{
    match byte {
        b'"' => add(b"\\\"", out),
        b'\\' => add(b"\\\\", out),
        b'\n' => add(b"\\n", out),
        b'\t' => add(b"\\t", out),
        _ => add(&[byte], out),
    }
}

/// The semigroup with these minimal generators.
pub fn add_semigroup(generators: &[u64], out: &mut Bytes) -> Result<(), AllocError>
    ensures { Adds result out.old out.new (semigroup_text generators.now) }
{
    add(b"NumericalSemigroup( ", out)?;
    add_numbers(generators, out)?;
    add(b" )", out)
}

fn add_numbers(numbers: &[u64], out: &mut Bytes) -> Result<(), AllocError>
    ensures { Adds result out.old out.new (numbers_text numbers.now) }
{
    add(b"[ ", out)?;
    add_each_number(numbers, out)?;
    add(b" ]", out)
}

fn add_each_number(numbers: &[u64], out: &mut Bytes) -> Result<(), AllocError>
    ensures { Adds result out.old out.new (joined (map decimal numbers.now)) }
{
    for (i, number) in numbers.iter().enumerate() {
        add_separated_number(i, *number, out)?;
    }
    Ok(())
}

fn add_separated_number(index: usize, number: u64, out: &mut Bytes) -> Result<(), AllocError>
    ensures { Adds result out.old out.new (separator index ++ decimal number) }
{
    add_separator(index, out)?;
    add_number(number, out)
}

/// The ideal with these minimal generators, of the semigroup with those.
pub fn add_ideal_of(generators: &[i64], ambient: &[u64], out: &mut Bytes) -> Result<(), AllocError>
    ensures { Adds result out.old out.new (ideal_text (record { ambient = ambient.now; generators = generators.now })) }
{
    add_integers(generators, out)?;
    add(b" + ", out)?;
    add_semigroup(ambient, out)
}

/// A list of integers.
fn add_integers(numbers: &[i64], out: &mut Bytes) -> Result<(), AllocError>
    ensures { Adds result out.old out.new (integers_text numbers.now) }
{
    add(b"[ ", out)?;
    add_each_integer(numbers, out)?;
    add(b" ]", out)
}

fn add_each_integer(numbers: &[i64], out: &mut Bytes) -> Result<(), AllocError>
    ensures { Adds result out.old out.new (joined (map signed_decimal numbers.now)) }
{
    for (i, number) in numbers.iter().enumerate() {
        add_separated_integer(i, number, out)?;
    }
    Ok(())
}

fn add_separated_integer(index: usize, number: &i64, out: &mut Bytes) -> Result<(), AllocError>
    ensures { Adds result out.old out.new (separator index ++ signed_decimal number.now) }
{
    add_separator(index, out)?;
    add(Buffer::new().format(*number).as_bytes(), out)
}
