//! The variables, each name with its value.

ghost use Rattle.std.specs.Prelude.{◌≡◌, ℕ, List, Some, None, MatchOption, IfSome, OnOk, OnErr, [], slice_get, ⊤, Vec, ◌<◌};
ghost use Rattle.indexmap.specs.IndexMap.{index_map_len};
ghost use Rattle.std.specs.Global.{Global};
ghost use Rattle.sg_value.specs.declared.value.Value.{Value};
ghost use Rattle.sg_value.specs.Known.{Known, named};
ghost use Rattle.std.specs.Map.{lookup};
ghost use Rattle.std.specs.Str.{bytes_eq};
ghost use Rattle.sg_value.specs.Plain.{AllKnown, AllKnownIn, contents, plain, plain_of_all};
ghost use Rattle.sg_value.specs.Data.{int};
ghost use Rattle.sg_eval.specs.State.{State, vars_of, values_of, AreKnown, AreKnownIn};
ghost use Rattle.sg_meaning.specs.Expressions.{looked_up};
ghost use Rattle.sg_eval.specs.Outcomes.{Evaluates, plain_of, known_of};
ghost use Rattle.sg_eval.specs.Growth.{Grows, joined_onto};
ghost use Rattle.sg_meaning.specs.Vars.{with_value};

use crate::variable::{Variable, find};
use indexmap::IndexMap;
use sg_calls::{CallFault, Fault};
use sg_rows_lists::concatenate_onto;
use sg_value::Value;
use std::alloc::{AllocError, Global};

/// Each name with its value, in the order in which the names first got one.
pub type Variables = IndexMap<Vec<u8>, Value>;

/// How many variables are compared with a name before it is looked up by its hash.
const NEAR: usize = 4;

/// The place of a variable among the first few.
#[inline(always)]
fn near(variables: &Variables, name: &[u8]) -> Option<usize>
    ensures within { IfSome result (λ i. i < index_map_len variables.now) }
    ensures named { IfSome result (λ i. (e : Vec ℕ Global × Value) × (slice_get variables.now.entries i ≡ Some e) × (e.0.items ≡ name.now)) }
{
    for place in 0..NEAR {
        match variables.get_index(place) {
            Some((key, _)) => {
                if key.as_slice() == name {
                    return Some(place);
                }
            }
            None => return None,
        }
    }
    None
}

/// The value of a variable.
pub fn value_of<'a>(variables: &'a Variables, name: &[u8]) -> Option<&'a Value>
    ensures found { (names : Known) → MatchOption result (lookup (bytes_eq name.now) (values_of names variables.now.entries) ≡ None) (λ v. lookup (bytes_eq name.now) (values_of names variables.now.entries) ≡ Some (plain (named names) v.now)) }
    ensures known { (names : Known) → AreKnownIn names variables.now.entries → MatchOption result ⊤ (λ v. AllKnown (named names) v.now) }
{
    if let Some(place) = near(variables, name) {
        if let Some((_, value)) = variables.get_index(place) {
            return Some(value);
        }
    }
    variables.get(name)
}

/// Gives a variable its value.
pub fn set(
    alloc: Global,
    variables: &mut Variables,
    name: &[u8],
    value: Value,
) -> Result<(), AllocError>
    ensures ok { OnOk result ((names : Known) → values_of names variables.new.entries ≡ with_value name.now (plain (named names) value) (values_of names variables.old.entries)) }
    ensures known { OnOk result ((names : Known) → AreKnownIn names variables.old.entries → AllKnown (named names) value → AreKnownIn names variables.new.entries) }
    ensures err { OnErr result (variables.new.entries ≡ variables.old.entries) }
{
    if let Some(place) = near(variables, name) {
        *variables.get_index_mut(place).unwrap() = value;
        return Ok(());
    }
    if let Some(place) = variables.get_mut(name) {
        *place = value;
        return Ok(());
    }
    variables.insert(name.to_vec(alloc)?, value)?;
    Ok(())
}

/// Puts an integer in the place of a value. Where that is an integer too, there is nothing to drop.
#[inline(always)]
fn put_integer(value: &mut Value, z: i64)
    ensures { contents value.new ≡ int z }
{
    if let Value::Int(x) = value {
        *x = z;
        return;
    }
    *value = Value::Int(z);
}

/// Gives a variable an integer.
pub fn set_integer(
    alloc: Global,
    variables: &mut Variables,
    name: &[u8],
    z: i64,
) -> Result<(), AllocError>
    ensures ok { OnOk result ((names : Known) → values_of names variables.new.entries ≡ with_value name.now (int z) (values_of names variables.old.entries)) }
    ensures known { OnOk result ((names : Known) → AreKnownIn names variables.old.entries → AreKnownIn names variables.new.entries) }
    ensures err { OnErr result (variables.new.entries ≡ variables.old.entries) }
{
    if let Some(place) = near(variables, name) {
        put_integer(variables.get_index_mut(place).unwrap(), z);
        return Ok(());
    }
    set(alloc, variables, name, Value::Int(z))
}

/// Puts the entries of lists behind those of a variable's list, in its place. After a fault all is as it was.
pub fn grow(
    alloc: Global,
    variables: &mut Variables,
    name: &[u8],
    lists: &[Value],
) -> Result<(), CallFault>
    ensures grows { (s : State) → s.parameters ≡ [] → s.variables ≡ values_of s.names variables.old.entries → AreKnownIn s.names variables.old.entries → AllKnownIn (named s.names) lists.now → Grows result s (values_of s.names variables.new.entries) name.now (λ names. joined_onto name.now (plain_of_all names lists.now)) }
    ensures known { (names : Known) → AreKnownIn names variables.old.entries → AllKnownIn (named names) lists.now → AreKnownIn names variables.new.entries }
{
    match variables.get_mut(name) {
        Some(value) => concatenate_onto(alloc, value, lists),
        None => Err(CallFault::Script(Fault::UnknownName)),
    }
}

/// The value of a parameter, or else of a variable.
pub fn find_in<'a>(
    parameters: &'a [Variable],
    variables: &'a Variables,
    name: &[u8],
) -> Result<&'a Value, CallFault>
    ensures { (s : State) → s.parameters ≡ vars_of s.names parameters.now → s.variables ≡ values_of s.names variables.now.entries → AreKnown s.names parameters.now → AreKnownIn s.names variables.now.entries → Evaluates plain_of known_of result s s (λ names. looked_up (lookup (bytes_eq name.now) s.parameters) name.now) }
{
    if let Some(value) = find(parameters, name) {
        return Ok(value);
    }
    match value_of(variables, name) {
        Some(value) => Ok(value),
        None => Err(CallFault::Script(Fault::UnknownName)),
    }
}
