//! The worked drill of three statements, and its three lines.

use crate::{Tally, drill_lines, drill_text};
use sg_io::write_whole;
use std::test::Fail;

#[test]
fn drill_of_three(rt: HostRuntime) -> Result<(), Fail> {
    let text = drill_text(rt.alloc(), 3)?;
    let lines = b"Print(Genus(NumericalSemigroup(37,38)),\"\\n\");\n\
        Print(PseudoFrobenius(NumericalSemigroup(5,6)),\"\\n\");\n\
        Print(LengthsOfFactorizations(2256,NumericalSemigroup(47,48)),\"\\n\");\n";
    assert!(rt; text.as_slice() == lines.as_slice());
    Ok(())
}

#[test]
fn its_lines(rt: HostRuntime) -> Result<(), Fail> {
    let mut tally = Tally::new(rt.alloc());
    write_whole(&mut tally, b"666\n")?;
    write_whole(&mut tally, b"[ 19 ]\n")?;
    write_whole(&mut tally, b"[ 47, 48 ]\n")?;
    let lines = drill_lines(rt.alloc(), 3, &tally)?;
    assert!(rt; lines.as_str() == "statements 3\nbytes 22\nsum 1085\n");
    Ok(())
}
