//! What a run counts and does not print.

use sg_eval::Machine;
use sg_io::MemSink;
use sg_script::parse;
use sg_store::Store;
use std::test::Fail;

#[test]
fn a_tame_degree_is_made_once(rt: HostRuntime) -> Result<(), Fail> {
    let alloc = rt.alloc();
    let statement = parse(alloc, b"TameDegree(NumericalSemigroup(3,5));")?;
    let mut machine = Machine::new(alloc, Store::new(alloc, 1)?, 1);
    let mut out = MemSink::new(alloc, &[])?;
    machine.step(alloc, &statement, &mut out).ok();
    machine.step(alloc, &statement, &mut out).ok();
    let counts = machine.counts();
    assert!(rt; counts.tames_asked == 2);
    assert!(rt; counts.tames_made == 1);
    Ok(())
}
