//! When two values are equal.

ghost use Rattle.std.specs.Prelude.{◌≡◌, ◌↔◌, IsTrue};
ghost use Rattle.sg_value.specs.Plain.{contents, contents_of_all};

use crate::value::Value;

/// Whether two values are of one kind and have the same contents, semigroups and ideals by their ids. It takes no memory.
#[cycle(equal)]
pub fn equal(a: &Value, b: &Value) -> bool
    ensures { IsTrue result ↔ (contents a.now ≡ contents b.now) }
{
    match (a, b) {
        (Value::Int(m), Value::Int(n)) => m == n,
        (Value::Bool(m), Value::Bool(n)) => m == n,
        (Value::Text(m), Value::Text(n)) => m.as_slice() == n.as_slice(),
        (Value::List(m), Value::List(n)) => all_equal(m.as_slice(), n.as_slice()),
        (Value::Ratio(m), Value::Ratio(n)) => m.num == n.num && m.den == n.den,
        (Value::Fail, Value::Fail) => true,
        (Value::Sem(m), Value::Sem(n)) => m.index() == n.index(),
        (Value::Ideal(m), Value::Ideal(n)) => m.index() == n.index(),
        _ => false,
    }
}

#[cycle(equal)]
fn all_equal(a: &[Value], b: &[Value]) -> bool
    ensures { IsTrue result ↔ (contents_of_all a.now ≡ contents_of_all b.now) }
{
    if a.len() != b.len() {
        return false;
    }
    for i in 0..a.len() {
        if !equal(&a[i], &b[i]) {
            return false;
        }
    }
    true
}
