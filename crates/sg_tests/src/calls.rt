//! Each public call once, with ample memory, and one refusal. What each command and each operator answers stands in
//! the table of `sgps_scripts`.

use sg_calls::{CallFault, Fault, Operator, answer, check_call, combine, negate};
use sg_store::Store;
use sg_value::Value;
use std::test::Fail;

#[test]
fn a_known_call_answers(rt: HostRuntime) -> Result<(), Fail> {
    let mut store = Store::new(rt.alloc(), 2)?;
    let refused = check_call(b"Gcd", 2);
    assert!(rt; refused.is_none());
    let reply = answer(
        rt.alloc(),
        &mut store,
        b"Gcd",
        &[Value::Int(4), Value::Int(6)],
        0,
    );
    assert!(rt; matches!(reply, Ok(Value::Int(2))));
    Ok(())
}

#[test]
fn a_wrong_count_is_refused(rt: HostRuntime) {
    assert_eq!(rt; check_call(b"Gcd", 0), Some(Fault::WrongCount));
    assert_eq!(rt; Fault::Depth.number(), 12);
}

#[test]
fn operators_give(rt: HostRuntime) -> Result<(), Fail> {
    let mut store = Store::new(rt.alloc(), 2)?;
    let sum = combine(
        rt.alloc(),
        &mut store,
        Operator::Plus,
        &Value::Int(-7),
        &Value::Int(3),
        0,
    );
    assert!(rt; matches!(sum, Ok(Value::Int(-4))));
    assert!(rt; matches!(negate(&Value::Int(-7)), Ok(Value::Int(7))));
    Ok(())
}

#[test]
fn an_operator_refuses(rt: HostRuntime) {
    let refused = negate(&Value::Bool(true));
    assert!(rt; matches!(refused, Err(CallFault::Script(Fault::WrongType))));
}
