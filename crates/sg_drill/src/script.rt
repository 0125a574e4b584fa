//! The script of a drill.

ghost use Rattle.std.specs.Prelude.{◌≡◌, ◌<◌, ◌≤◌, IfOk, string_bytes};
ghost use Rattle.sg_drill.specs.Script.{drill_script, line, multiplicity, next_number};

use sg_nat::Bytes;
use std::alloc::{AllocError, Global};

/// The script of a drill with this many statements, from 1 to 100,000, one in each line.
///
/// Refused only for want of memory.
pub fn drill_text(alloc: Global, statements: u64) -> Result<Bytes, AllocError>
    requires some { 0 < statements }
    requires few { statements ≤ 100000 }
    ensures { IfOk result (λ text. text ≡ drill_script statements) }
{
    let mut text = Bytes::new(alloc);
    let mut number = statements;
    let mut lines = 0;
    while lines < statements {
        lines += 1;
        number = next_number(number);
        let line = line(alloc, lines, multiplicity(number))?;
        text.extend_from_slice(line.as_bytes())?;
    }
    Ok(text)
}

/// The number behind this one.
fn next_number(number: u64) -> u64
    requires { number < 2147483648 }
    ensures value { result ≡ next_number number }
    ensures small { result < 2147483648 }
{
    (1_103_515_245 * number + 12_345) % 2_147_483_648
}

/// The multiplicity of the semigroup that is drawn with a number: from 2 to 49.
fn multiplicity(number: u64) -> u64
    ensures value { result ≡ multiplicity number }
    ensures small { result < 50 }
{
    2 + number / 65_536 % 48
}

/// The line with this number, counted from 1, over the semigroup of this multiplicity, with its line feed.
fn line(alloc: Global, number: u64, least: u64) -> Result<String, AllocError>
    requires { least < 50 }
    ensures { IfOk result (λ text. string_bytes text ≡ line number least) }
{
    let other = least + 1;
    match number % 3 {
        1 => format!(in alloc; "Print(Genus(NumericalSemigroup({least},{other})),\"\\n\");\n"),
        2 => format!(in alloc;
            "Print(PseudoFrobenius(NumericalSemigroup({least},{other})),\"\\n\");\n"
        ),
        _ => {
            let product = least * other;
            format!(in alloc;
                "Print(LengthsOfFactorizations({product},NumericalSemigroup({least},{other})),\"\\n\");\n"
            )
        }
    }
}
