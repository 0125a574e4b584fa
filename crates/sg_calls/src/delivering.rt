//! What rows made, as values over a store: the one place where semigroups and ideals get their ids.

ghost use Rattle.std.specs.Prelude.{◌≡◌, ◌≤◌, ◌↔◌, ℕ, IfOk, IsTrue, All, min, pos, map};
ghost use Rattle.sg_lawful.specs.Lawful.{IsLawfulList, IsLawfulIdeal};
ghost use Rattle.sg_value.specs.Data.{int, list, semigroup, items_of};
ghost use Rattle.sg_value.specs.Known.{Known, named};
ghost use Rattle.sg_value.specs.Plain.{AllKnownIn, contents, contents_of_all, plain_of_all};
ghost use Rattle.sg_store.specs.Interned.{Keeps};
ghost use Rattle.sg_rows.specs.Made.{AreWithinBits, IsSound};
ghost use Rattle.sg_rows.specs.Values.{natural_list, vector_list, weight_of_vectors, weight_of_lists};
ghost use Rattle.sg_calls.specs.Delivered.{IsDelivered, IsValueOf, weight_made};

use sg_nat::{Ints, Nats, Rows};
use sg_rows::{CallFault, Fault, Made, is_heavy};
use sg_store::Ids;
use sg_value::{Items, Value, WEIGHT_LIMIT};
use std::alloc::{AllocError, Global};

/// Each integer as a value.
fn integer_values(alloc: Global, zs: &[i64]) -> Result<Vec<Value>, AllocError>
    ensures { IfOk result (λ vs. contents_of_all vs.items ≡ items_of (map int zs.now)) }
{
    let mut values = Vec::with_capacity(alloc, zs.len())?;
    for z in zs {
        values.push(Value::Int(*z))?;
    }
    Ok(values)
}

/// Each natural as a value.
fn natural_values(alloc: Global, ns: &[u64]) -> Result<Vec<Value>, AllocError>
    requires { AreWithinBits ns.now }
    ensures { IfOk result (λ vs. contents_of_all vs.items ≡ items_of (map (λ n. int (pos n)) ns.now)) }
{
    let mut values = Vec::with_capacity(alloc, ns.len())?;
    for n in ns {
        values.push(Value::Int(*n as i64))?;
    }
    Ok(values)
}

/// A list of naturals as a value.
fn naturals_value(alloc: Global, ns: &[u64]) -> Result<Value, AllocError>
    requires { AreWithinBits ns.now }
    ensures { IfOk result (λ v. contents v ≡ natural_list ns.now) }
{
    list_value(alloc, natural_values(alloc, ns)?)
}

/// Each vector as a value.
fn vector_values(alloc: Global, vectors: &[Nats]) -> Result<Vec<Value>, AllocError>
    requires { All AreWithinBits vectors.now }
    ensures { IfOk result (λ vs. contents_of_all vs.items ≡ items_of (map natural_list vectors.now)) }
{
    let mut values = Vec::with_capacity(alloc, vectors.len())?;
    for vector in vectors {
        values.push(naturals_value(alloc, vector.as_slice())?)?;
    }
    Ok(values)
}

/// A list of vectors as a value.
fn vectors_value(alloc: Global, vectors: &[Nats]) -> Result<Value, AllocError>
    requires { All AreWithinBits vectors.now }
    ensures { IfOk result (λ v. contents v ≡ vector_list vectors.now) }
{
    list_value(alloc, vector_values(alloc, vectors)?)
}

/// Each list of vectors as a value.
fn vector_list_values(alloc: Global, lists: &[Rows]) -> Result<Vec<Value>, AllocError>
    requires { All (All AreWithinBits) lists.now }
    ensures { IfOk result (λ vs. contents_of_all vs.items ≡ items_of (map vector_list lists.now)) }
{
    let mut values = Vec::with_capacity(alloc, lists.len())?;
    for vectors in lists {
        values.push(vectors_value(alloc, vectors.as_slice())?)?;
    }
    Ok(values)
}

/// Each semigroup as a value, by its old id where it is known.
fn semigroup_values(alloc: Global, ids: &mut Ids, lists: &[Nats]) -> Result<Vec<Value>, AllocError>
    requires { All IsLawfulList lists.now }
    ensures plain { IfOk result (λ vs. plain_of_all (named ids.new) vs.items ≡ items_of (map semigroup lists.now)) }
    ensures known { IfOk result (λ vs. AllKnownIn (named ids.new) vs.items) }
    ensures keeps { Keeps ids.old ids.new }
{
    let mut values = Vec::with_capacity(alloc, lists.len())?;
    for list in lists {
        values.push(Value::Sem(ids.intern(list.try_clone()?)?))?;
    }
    Ok(values)
}

/// The values as a list.
fn list_value(alloc: Global, values: Vec<Value>) -> Result<Value, AllocError>
    ensures { IfOk result (λ v. contents v ≡ list (contents_of_all values.items)) }
{
    Ok(Value::List(Items::from_vec(alloc, values)?))
}

/// A semigroup as a value, by its old id where it is known.
fn semigroup_value(ids: &mut Ids, generators: Nats) -> Result<Value, AllocError>
    requires { IsLawfulList generators }
    ensures value { IfOk result (IsValueOf ids.new (Made.Semigroup generators)) }
    ensures keeps { Keeps ids.old ids.new }
{
    Ok(Value::Sem(ids.intern(generators)?))
}

/// An ideal as a value, by its old id where it is known.
fn ideal_value(ids: &mut Ids, ambient: Nats, generators: Ints) -> Result<Value, AllocError>
    requires { IsLawfulIdeal ambient generators }
    ensures value { IfOk result (IsValueOf ids.new (Made.Ideal ambient generators)) }
    ensures keeps { Keeps ids.old ids.new }
{
    let ambient = ids.intern(ambient)?;
    Ok(Value::Ideal(ids.intern_ideal(ambient, generators)?))
}

/// What a row made as a value.
fn value_of(alloc: Global, ids: &mut Ids, made: Made) -> Result<Value, AllocError>
    requires { IsSound made }
    ensures value { IfOk result (IsValueOf ids.new made) }
    ensures keeps { Keeps ids.old ids.new }
{
    match made {
        Made::Integer(z) => Ok(Value::Int(z)),
        Made::Natural(n) => Ok(Value::Int(n as i64)),
        Made::Truth(holds) => Ok(Value::Bool(holds)),
        Made::Ratio(ratio) => Ok(Value::Ratio(ratio)),
        Made::Fail => Ok(Value::Fail),
        Made::Integers(zs) => list_value(alloc, integer_values(alloc, zs.as_slice())?),
        Made::Naturals(ns) => list_value(alloc, natural_values(alloc, ns.as_slice())?),
        Made::Vectors(vectors) => list_value(alloc, vector_values(alloc, vectors.as_slice())?),
        Made::VectorLists(lists) => {
            list_value(alloc, vector_list_values(alloc, lists.as_slice())?)
        }
        Made::Semigroup(generators) => semigroup_value(ids, generators),
        Made::Semigroups(lists) => {
            list_value(alloc, semigroup_values(alloc, ids, lists.as_slice())?)
        }
        Made::Ideal(ambient, generators) => ideal_value(ids, ambient, generators),
    }
}

/// The weight of vectors in a list of lists, and no more than the limit: each weighs 1 more than it has places.
fn weight_within(vectors: &[Nats]) -> u64
    ensures { result ≡ min (weight_of_vectors vectors.now) WEIGHT_LIMIT }
{
    let mut weight = 0u64;
    for vector in vectors {
        weight += vector.as_slice().len() as u64 + 1;
        if is_heavy(weight) {
            return WEIGHT_LIMIT;
        }
    }
    weight
}

/// Whether lists of vectors are too heavy for a list: each weighs 1 more than its vectors.
fn are_heavy(lists: &[Rows]) -> bool
    ensures { IsTrue result ↔ (WEIGHT_LIMIT ≤ weight_of_lists lists.now) }
{
    let mut weight = 0u64;
    for vectors in lists {
        weight += weight_within(vectors.as_slice()) + 1;
        if is_heavy(weight) {
            return true;
        }
    }
    false
}

/// Whether a list that was made is too heavy for a value.
fn is_too_heavy(made: &Made) -> bool
    ensures { IsTrue result ↔ (WEIGHT_LIMIT ≤ weight_made made.now) }
{
    match made {
        Made::Integers(zs) => is_heavy(zs.as_slice().len() as u64),
        Made::Naturals(ns) => is_heavy(ns.as_slice().len() as u64),
        Made::Vectors(vectors) => is_heavy(weight_within(vectors.as_slice())),
        Made::VectorLists(lists) => are_heavy(lists.as_slice()),
        Made::Semigroups(lists) => is_heavy(lists.as_slice().len() as u64),
        _ => false,
    }
}

/// What a row told as the reply: what was made as a value, or the refusal. A list that is too heavy for a value is
/// refused before it is built.
pub fn deliver(
    alloc: Global,
    ids: &mut Ids,
    told: Result<Made, CallFault>,
) -> Result<Value, CallFault>
    requires { IfOk told IsSound }
    ensures delivered { IsDelivered told ids.new result }
    ensures keeps { Keeps ids.old ids.new }
{
    match told {
        Ok(made) if is_too_heavy(&made) => Err(CallFault::Script(Fault::TooLarge)),
        Ok(made) => Ok(value_of(alloc, ids, made)?),
        Err(fault) => Err(fault),
    }
}
