//! How steps end, and what stands after one that was cut short, which no script shows. What expressions and statements
//! come to stands in the table of `sgps_scripts`.

use sg_calls::Fault;
use sg_eval::{Flow, Machine, StepFault};
use sg_io::MemSink;
use sg_script::parse;
use sg_store::Store;
use std::alloc::Global;
use std::test::Fail;

/// How the machine's step ends that does what this text says.
fn step(
    alloc: Global,
    machine: &mut Machine,
    text: &[u8],
    out: &mut MemSink,
) -> Result<Result<Flow, StepFault>, Fail> {
    let stmt = parse(alloc, text)?;
    Ok(machine.step(alloc, &stmt, out))
}

/// How the first of two steps of one machine ends.
fn first_of(
    alloc: Global,
    texts: (&[u8], &[u8]),
    out: &mut MemSink,
) -> Result<Result<Flow, StepFault>, Fail> {
    let mut machine = Machine::new(alloc, Store::new(alloc, 2)?, 1);
    let ended = step(alloc, &mut machine, texts.0, out)?;
    step(alloc, &mut machine, texts.1, out)?.ok();
    Ok(ended)
}

/// Whether the first of two steps ends so, and both write this, where the writes of these numbers fail.
fn is_done(
    alloc: Global,
    texts: (&[u8], &[u8]),
    failing: &[u64],
    ended: Result<Flow, StepFault>,
    written: &[u8],
) -> Result<bool, Fail> {
    let mut out = MemSink::new(alloc, failing)?;
    let found = first_of(alloc, texts, &mut out)?;
    Ok(found == ended && out.bytes() == written)
}

#[test]
fn a_statement_is_done(rt: HostRuntime) -> Result<(), Fail> {
    assert!(rt;
        is_done(
            rt.alloc(),
            (b"Print(1);", b"quit;"),
            &[],
            Ok(Flow::On),
            b"1"
        )?
    );
    Ok(())
}

#[test]
fn quit_ends_the_run(rt: HostRuntime) -> Result<(), Fail> {
    assert!(rt;
        is_done(
            rt.alloc(),
            (b"quit;", b"Print(1);"),
            &[],
            Ok(Flow::Quit),
            b"1"
        )?
    );
    Ok(())
}

#[test]
fn what_a_refused_statement_did_stands(rt: HostRuntime) -> Result<(), Fail> {
    let texts = (
        b"for i in [6] do Print(i); x := i; y; od;".as_slice(),
        b"Print(i, x);".as_slice(),
    );
    let ended = Err(StepFault::Script(Fault::UnknownName));
    assert!(rt; is_done(rt.alloc(), texts, &[], ended, b"666")?);
    Ok(())
}

#[test]
fn what_was_written_before_a_failed_write_stands(rt: HostRuntime) -> Result<(), Fail> {
    let texts = (
        b"for i in [1..3] do Print(i); od;".as_slice(),
        b"Print(i);".as_slice(),
    );
    assert!(rt; is_done(rt.alloc(), texts, &[1], Err(StepFault::Write), b"12")?);
    Ok(())
}

#[test]
fn a_list_that_would_grow_too_heavy_stays(rt: HostRuntime) -> Result<(), Fail> {
    let texts = (
        b"for l in [[1..4194302]] do for i in [1, 2] do l := Concatenation(l, [i]); od; od;".as_slice(),
        b"Print(Length(l), l[4194303]);".as_slice(),
    );
    let ended = Err(StepFault::Script(Fault::TooLarge));
    assert!(rt; is_done(rt.alloc(), texts, &[], ended, b"41943031")?);
    Ok(())
}

/// How often tables, and how often pseudo-Frobenius numbers, were asked for by a statement that ends so.
fn asked_by(
    alloc: Global,
    text: &[u8],
    ended: Result<Flow, StepFault>,
) -> Result<Option<(u64, u64)>, Fail> {
    let mut machine = Machine::new(alloc, Store::new(alloc, 2)?, 1);
    let mut out = MemSink::new(alloc, &[])?;
    if step(alloc, &mut machine, text, &mut out)? != ended {
        return Ok(None);
    }
    let counts = machine.counts();
    Ok(Some((counts.tables_asked, counts.pseudo_asked)))
}

#[test]
fn what_a_statement_asks_for_is_counted(rt: HostRuntime) -> Result<(), Fail> {
    let text =
        b"for s in [NumericalSemigroup(3, 5)] do Genus(s); Genus(s); Type(s); od;".as_slice();
    assert_eq!(rt; asked_by(rt.alloc(), text, Ok(Flow::On))?, Some((2, 1)));
    Ok(())
}

#[test]
fn what_a_refused_statement_asks_for_is_counted(rt: HostRuntime) -> Result<(), Fail> {
    let text = b"AperyList(NumericalSemigroup(3, 5), 1);".as_slice();
    let ended = Err(StepFault::Script(Fault::BadArgument));
    assert_eq!(rt; asked_by(rt.alloc(), text, ended)?, Some((1, 0)));
    Ok(())
}
