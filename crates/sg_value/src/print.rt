//! The text that `Print` writes for a value.

ghost use Rattle.std.specs.Prelude.{◌++◌, IsSome};
ghost use Rattle.sg_value.specs.Data.{ideals};
ghost use Rattle.sg_value.specs.Plain.{AllKnown, AllKnownIn, plain, plain_of_all, thing_at};
ghost use Rattle.sg_value.specs.Text.{Adds, ideal_text, text_of, entry_text, entry_texts, bracketed, joined, separator};

use crate::id::IdealId;
use crate::names::Names;
use crate::text::{add, add_ideal_of, add_quoted, add_ratio, add_semigroup, add_separator};
use crate::value::Value;
use itoa::Buffer;
use sg_nat::Bytes;
use std::alloc::AllocError;

/// Puts the text that `Print` writes for the value at the end of `out`. Where it is refused memory, a front of the text
/// stands there. Each id in the value has to be known to the names.
pub fn print_into<N: Names>(v: &Value, names: &N, out: &mut Bytes) -> Result<(), AllocError>
    requires known { AllKnown (N.named names.now) v.now }
    ensures { Adds result out.old out.new (text_of (plain (N.named names.now) v.now)) }
{
    match v {
        Value::Text(text) => add(text.as_slice(), out),
        _ => add_entry(v, names, out),
    }
}

/// The text of an entry of a list: that of `Print`, but texts are quoted.
#[cycle(print)]
fn add_entry<N: Names>(v: &Value, names: &N, out: &mut Bytes) -> Result<(), AllocError>
    requires known { AllKnown (N.named names.now) v.now }
    ensures { Adds result out.old out.new (entry_text (plain (N.named names.now) v.now)) }
{
    match v {
        Value::Int(n) => add(Buffer::new().format(*n).as_bytes(), out),
        Value::Bool(true) => add(b"true", out),
        Value::Bool(false) => add(b"false", out),
        Value::Text(text) => add_quoted(text.as_slice(), out),
        Value::List(items) => add_list(items.as_slice(), names, out),
        Value::Ratio(ratio) => add_ratio(ratio.num, ratio.den, out),
        Value::Fail => add(b"fail", out),
        Value::Sem(id) => add_semigroup(names.semigroup(*id).as_slice(), out),
        Value::Ideal(id) => add_ideal(*id, names, out),
    }
}

/// The text of an ideal: its minimal generators, and its ambient semigroup.
fn add_ideal<N: Names>(id: IdealId, names: &N, out: &mut Bytes) -> Result<(), AllocError>
    requires known { IsSome (N.named names.now ideals id) }
    ensures { Adds result out.old out.new (ideal_text (thing_at (N.named names.now) ideals id)) }
{
    let ambient = names.semigroup(names.ideal_ambient(id));
    add_ideal_of(
        names.ideal_generators(id).as_slice(),
        ambient.as_slice(),
        out,
    )
}

#[cycle(print)]
fn add_list<N: Names>(items: &[Value], names: &N, out: &mut Bytes) -> Result<(), AllocError>
    requires known { AllKnownIn (N.named names.now) items.now }
    ensures { Adds result out.old out.new (bracketed (entry_texts (plain_of_all (N.named names.now) items.now))) }
{
    add(b"[ ", out)?;
    add_each_entry(items, names, out)?;
    add(b" ]", out)
}

#[cycle(print)]
fn add_each_entry<N: Names>(items: &[Value], names: &N, out: &mut Bytes) -> Result<(), AllocError>
    requires known { AllKnownIn (N.named names.now) items.now }
    ensures { Adds result out.old out.new (joined (entry_texts (plain_of_all (N.named names.now) items.now))) }
{
    for (i, item) in items.iter().enumerate() {
        add_separated_entry(item, i, names, out)?;
    }
    Ok(())
}

#[cycle(print)]
fn add_separated_entry<N: Names>(
    v: &Value,
    index: usize,
    names: &N,
    out: &mut Bytes,
) -> Result<(), AllocError>
    requires known { AllKnown (N.named names.now) v.now }
    ensures { Adds result out.old out.new (separator index ++ entry_text (plain (N.named names.now) v.now)) }
{
    add_separator(index, out)?;
    add_entry(v, names, out)
}
