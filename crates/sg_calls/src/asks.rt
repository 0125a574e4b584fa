//! What calls ask the store for. A call asks for nothing before all its arguments are seen to be of the kinds that its row
//! takes. Then it asks for the tables of the semigroups in the order of the arguments, and of a semigroup for its table
//! before its pseudo-Frobenius numbers. An ideal asks for the table of its semigroup. What is asked for once a row takes its
//! arguments stands in `presentations` and `tames`.

ghost use Rattle.std.specs.Prelude.{◌≡◌, ℕ, List, Some, None, IsSome, IfOk, OnOk, MatchOption, [], ◌∷◌, slice_get};
ghost use Rattle.sg_defs.specs.Invariants.{IsPseudoFrobenius};
ghost use Rattle.sg_defs.specs.Listings.{ListsIntegers};
ghost use Rattle.sg_lawful.specs.Lawful.{IsLawfulList, IsLawfulIdeal};
ghost use Rattle.sg_value.specs.Data.{ideals};
ghost use Rattle.sg_value.specs.Known.{named};
ghost use Rattle.sg_value.specs.Plain.{AllKnown, AllKnownIn, thing_at};
ghost use Rattle.sg_rows_ideals.specs.Rows.{over};
ghost use Rattle.sg_rows.specs.Asks.{apery_table, pseudo_frobenius};
ghost use Rattle.sg_store.specs.Attributes.{table_answered};
ghost use Rattle.sg_calls.specs.Early.{AsksFor};
ghost use Rattle.sg_calls.specs.Asked.{the_semigroup, the_ideal, the_semigroup_and_integer, the_semigroups, the_integer_and_semigroup, the_integer_and_ideal, the_ideals, the_list_and_semigroup};

use sg_apery::Table;
use sg_ideal::Ideal;
use sg_nat::{Ints, Nats};
use sg_rows::{
    integer_then_semigroup, list_then_semigroup, one_ideal, one_semigroup, semigroup_and_integer,
    two_semigroups,
};
use sg_rows_ideals::known_ideal;
use sg_store::{Ids, Store};
use sg_value::{IdealId, Value};
use std::alloc::{AllocError, Global};
use std::rc::Rc;

/// The minimal generators of the one argument, where it is a semigroup. Nothing is asked for.
pub fn one_list_of_generators<'a>(ids: &'a Ids, args: &[Value]) -> Option<&'a Nats>
    requires { AllKnownIn (named ids.now) args.now }
    ensures { MatchOption result (the_semigroup ids.now args.now ≡ None) (λ gens. (the_semigroup ids.now args.now ≡ Some gens.now) × IsLawfulList gens.now) }
{
    Some(ids.generators(one_semigroup(args)?))
}

/// The table of the one argument, where it is a semigroup.
pub fn one_table(
    alloc: Global,
    store: &mut Store,
    args: &[Value],
) -> Result<Option<Rc<Table>>, AllocError>
    requires { AllKnownIn (named store.old.ids) args.now }
    ensures table { IfOk result (λ found. MatchOption found (the_semigroup store.old.ids args.now ≡ None) (λ table. the_semigroup store.old.ids args.now ≡ Some table.value)) }
    ensures ids { store.new.ids ≡ store.old.ids }
    ensures asked { OnOk result (AsksFor (apery_table ∷ []) (the_semigroup store.old.ids args.now) (λ G. G ∷ []) store.old.attributes store.new.attributes) }
{
    match one_semigroup(args) {
        Some(id) => Ok(Some(store.table(alloc, id)?)),
        None => Ok(None),
    }
}

/// The pseudo-Frobenius numbers of the one argument, where it is a semigroup.
pub fn one_list_of_numbers(
    alloc: Global,
    store: &mut Store,
    args: &[Value],
) -> Result<Option<Rc<Ints>>, AllocError>
    requires { AllKnownIn (named store.old.ids) args.now }
    ensures numbers { IfOk result (λ found. MatchOption found (the_semigroup store.old.ids args.now ≡ None) (λ numbers. (G : List ℕ) × (the_semigroup store.old.ids args.now ≡ Some G) × ListsIntegers (IsPseudoFrobenius G) numbers.value)) }
    ensures ids { store.new.ids ≡ store.old.ids }
    ensures asked { OnOk result (AsksFor (pseudo_frobenius ∷ []) (the_semigroup store.old.ids args.now) (λ G. G ∷ []) store.old.attributes store.new.attributes) }
{
    match one_semigroup(args) {
        Some(id) => Ok(Some(store.pseudo_frobenius(alloc, id)?)),
        None => Ok(None),
    }
}

/// The table and then the pseudo-Frobenius numbers of the one argument, where it is a semigroup.
pub fn one_table_and_numbers(
    alloc: Global,
    store: &mut Store,
    args: &[Value],
) -> Result<Option<(Rc<Table>, Rc<Ints>)>, AllocError>
    requires { AllKnownIn (named store.old.ids) args.now }
    ensures both { IfOk result (λ found. MatchOption found (the_semigroup store.old.ids args.now ≡ None) (λ p. (the_semigroup store.old.ids args.now ≡ Some p.0.value) × ListsIntegers (IsPseudoFrobenius p.0.value) p.1.value)) }
    ensures ids { store.new.ids ≡ store.old.ids }
    ensures asked { OnOk result (AsksFor (apery_table ∷ pseudo_frobenius ∷ []) (the_semigroup store.old.ids args.now) (λ G. G ∷ []) store.old.attributes store.new.attributes) }
{
    let Some(id) = one_semigroup(args) else {
        return Ok(None);
    };
    let table = store.table(alloc, id)?;
    let numbers = store.pseudo_frobenius(alloc, id)?;
    Ok(Some((table, numbers)))
}

/// The table of the semigroup and the integer, where the two are these, in either order.
pub fn table_and_integer(
    alloc: Global,
    store: &mut Store,
    a: &Value,
    b: &Value,
) -> Result<Option<(Rc<Table>, i64)>, AllocError>
    requires first { AllKnown (named store.old.ids) a.now }
    requires second { AllKnown (named store.old.ids) b.now }
    ensures both { IfOk result (λ found. MatchOption found (the_semigroup_and_integer store.old.ids a.now b.now ≡ None) (λ p. the_semigroup_and_integer store.old.ids a.now b.now ≡ Some (p.0.value, p.1))) }
    ensures ids { store.new.ids ≡ store.old.ids }
    ensures asked { OnOk result (AsksFor (apery_table ∷ []) (the_semigroup_and_integer store.old.ids a.now b.now) (λ p. p.0 ∷ []) store.old.attributes store.new.attributes) }
{
    match semigroup_and_integer(a, b) {
        Some((id, n)) => Ok(Some((store.table(alloc, id)?, n))),
        None => Ok(None),
    }
}

/// The integer and the table of the semigroup, where the two are these in this order.
pub fn integer_then_table(
    alloc: Global,
    store: &mut Store,
    a: &Value,
    b: &Value,
) -> Result<Option<(i64, Rc<Table>)>, AllocError>
    requires { AllKnown (named store.old.ids) b.now }
    ensures both { IfOk result (λ found. MatchOption found (the_integer_and_semigroup store.old.ids a.now b.now ≡ None) (λ p. the_integer_and_semigroup store.old.ids a.now b.now ≡ Some (p.0, p.1.value))) }
    ensures ids { store.new.ids ≡ store.old.ids }
    ensures asked { OnOk result (AsksFor (apery_table ∷ []) (the_integer_and_semigroup store.old.ids a.now b.now) (λ p. p.1 ∷ []) store.old.attributes store.new.attributes) }
{
    match integer_then_semigroup(a, b) {
        Some((n, id)) => Ok(Some((n, store.table(alloc, id)?))),
        None => Ok(None),
    }
}

/// The tables of both, where both are semigroups.
pub fn two_tables(
    alloc: Global,
    store: &mut Store,
    a: &Value,
    b: &Value,
) -> Result<Option<(Rc<Table>, Rc<Table>)>, AllocError>
    requires first { AllKnown (named store.old.ids) a.now }
    requires second { AllKnown (named store.old.ids) b.now }
    ensures both { IfOk result (λ found. MatchOption found (the_semigroups store.old.ids a.now b.now ≡ None) (λ p. the_semigroups store.old.ids a.now b.now ≡ Some (p.0.value, p.1.value))) }
    ensures ids { store.new.ids ≡ store.old.ids }
    ensures asked { OnOk result (AsksFor (apery_table ∷ []) (the_semigroups store.old.ids a.now b.now) (λ p. p.0 ∷ p.1 ∷ []) store.old.attributes store.new.attributes) }
{
    let Some((one, other)) = two_semigroups(a, b) else {
        return Ok(None);
    };
    let first = store.table(alloc, one)?;
    let second = store.table(alloc, other)?;
    Ok(Some((first, second)))
}

/// The integers and the table of the semigroup, where the two are a list of integers and a semigroup.
pub fn list_then_table(
    alloc: Global,
    store: &mut Store,
    a: &Value,
    b: &Value,
) -> Result<Option<(Ints, Rc<Table>)>, AllocError>
    requires { AllKnown (named store.old.ids) b.now }
    ensures both { IfOk result (λ found. MatchOption found (the_list_and_semigroup store.old.ids a.now b.now ≡ None) (λ p. the_list_and_semigroup store.old.ids a.now b.now ≡ Some (p.0, p.1.value))) }
    ensures ids { store.new.ids ≡ store.old.ids }
    ensures asked { OnOk result (AsksFor (apery_table ∷ []) (the_list_and_semigroup store.old.ids a.now b.now) (λ p. p.1 ∷ []) store.old.attributes store.new.attributes) }
{
    match list_then_semigroup(alloc, a, b)? {
        Some((zs, id)) => Ok(Some((zs, store.table(alloc, id)?))),
        None => Ok(None),
    }
}

/// The minimal lists of the one argument, where it is an ideal. Nothing is asked for.
pub fn one_ideal_by_lists<'a>(ids: &'a Ids, args: &[Value]) -> Option<(&'a Nats, &'a Ints)>
    requires { AllKnownIn (named ids.now) args.now }
    ensures { MatchOption result (the_ideal ids.now args.now ≡ None) (λ p. (the_ideal ids.now args.now ≡ Some (over p.0.now p.1.now)) × IsLawfulIdeal p.0.now p.1.now) }
{
    let id = one_ideal(args)?;
    let ambient = ids.generators(ids.ambient(id));
    Some((ambient, ids.ideal_generators(id)))
}

/// The table of the semigroup of a known ideal.
pub fn table_of_ideal(
    alloc: Global,
    store: &mut Store,
    id: IdealId,
) -> Result<Rc<Table>, AllocError>
    requires { IsSome (slice_get store.old.ids.ideals id) }
    ensures table { IfOk result (λ table. table.value ≡ (thing_at (named store.old.ids) ideals id).ambient) }
    ensures ids { store.new.ids ≡ store.old.ids }
    ensures asked { OnOk result (store.new.attributes ≡ table_answered (thing_at (named store.old.ids) ideals id).ambient store.old.attributes) }
{
    let ambient = store.ids.ambient(id);
    store.table(alloc, ambient)
}

/// The table of the semigroup of a known ideal, and the ideal.
fn ideal_at(alloc: Global, store: &mut Store, id: IdealId) -> Result<(Rc<Table>, Ideal), AllocError>
    requires { IsSome (slice_get store.old.ids.ideals id) }
    ensures ideal { IfOk result (λ p. (p.1 ≡ thing_at (named store.old.ids) ideals id) × (p.1.ambient ≡ p.0.value)) }
    ensures ids { store.new.ids ≡ store.old.ids }
    ensures asked { OnOk result (store.new.attributes ≡ table_answered (thing_at (named store.old.ids) ideals id).ambient store.old.attributes) }
{
    let table = table_of_ideal(alloc, store, id)?;
    let ideal = known_ideal(alloc, &table, store.ids.ideal_generators(id).as_slice())?;
    Ok((table, ideal))
}

/// The integer, the table of the ideal's semigroup and the ideal, where the two are an integer and an ideal.
pub fn integer_then_ideal(
    alloc: Global,
    store: &mut Store,
    a: &Value,
    b: &Value,
) -> Result<Option<(i64, (Rc<Table>, Ideal))>, AllocError>
    requires { AllKnown (named store.old.ids) b.now }
    ensures both { IfOk result (λ found. MatchOption found (the_integer_and_ideal store.old.ids a.now b.now ≡ None) (λ p. (the_integer_and_ideal store.old.ids a.now b.now ≡ Some (p.0, p.1.1)) × (p.1.1.ambient ≡ p.1.0.value))) }
    ensures ids { store.new.ids ≡ store.old.ids }
    ensures asked { OnOk result (AsksFor (apery_table ∷ []) (the_integer_and_ideal store.old.ids a.now b.now) (λ p. p.1.ambient ∷ []) store.old.attributes store.new.attributes) }
{
    match sg_rows::integer_then_ideal(a, b) {
        Some((n, id)) => Ok(Some((n, ideal_at(alloc, store, id)?))),
        None => Ok(None),
    }
}

/// Both ideals, each behind the table of its semigroup, where both are ideals.
pub fn two_ideals(
    alloc: Global,
    store: &mut Store,
    a: &Value,
    b: &Value,
) -> Result<Option<((Rc<Table>, Ideal), (Rc<Table>, Ideal))>, AllocError>
    requires first { AllKnown (named store.old.ids) a.now }
    requires second { AllKnown (named store.old.ids) b.now }
    ensures both { IfOk result (λ found. MatchOption found (the_ideals store.old.ids a.now b.now ≡ None) (λ p. (the_ideals store.old.ids a.now b.now ≡ Some (p.0.1, p.1.1)) × (p.0.1.ambient ≡ p.0.0.value))) }
    ensures ids { store.new.ids ≡ store.old.ids }
    ensures asked { OnOk result (AsksFor (apery_table ∷ []) (the_ideals store.old.ids a.now b.now) (λ p. p.0.ambient ∷ p.1.ambient ∷ []) store.old.attributes store.new.attributes) }
{
    let Some((one, other)) = sg_rows::two_ideals(a, b) else {
        return Ok(None);
    };
    let first = ideal_at(alloc, store, one)?;
    let second = ideal_at(alloc, store, other)?;
    Ok(Some((first, second)))
}
