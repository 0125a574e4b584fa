//! Rows over all arguments of a call, by what they are told of: the kinds are looked at, the store is asked, and what the
//! row tells is delivered.

ghost use Rattle.sg_value.specs.Known.{named};
ghost use Rattle.sg_value.specs.Plain.{AllKnownIn, plain_of_all};
ghost use Rattle.sg_store.specs.Interned.{Keeps};
ghost use Rattle.std.specs.Prelude.{[], ◌∷◌};
ghost use Rattle.sg_rows.specs.Asks.{apery_table, pseudo_frobenius};
ghost use Rattle.sg_rows.specs.Forms.{of_list, of_list_or_integers, of_semigroup, of_semigroup_and_integer};
ghost use Rattle.sg_rows.specs.Replies.{Replies};
ghost use Rattle.sg_calls.specs.After.{Asked};
ghost use Rattle.sg_calls.specs.Early.{early_of};

use crate::asks::{
    one_list_of_generators, one_list_of_numbers, one_table, one_table_and_numbers,
    table_and_integer,
};
use crate::delivering::deliver;
use sg_rows::{
    CallFault, Fault, OfGenerators, OfIntegers, OfNumbers, OfTable, OfTableAndInteger,
    OfTableAndNumbers, list_or_integers, one_list_of_integers,
};
use sg_store::{Ids, Store};
use sg_value::Value;
use std::alloc::Global;

/// A row of one list of integers.
pub fn of_list<R: OfIntegers + Copy>(
    alloc: Global,
    ids: &mut Ids,
    row: R,
    args: &[Value],
) -> Result<Value, CallFault>
    ensures reply { Replies result ids.new (of_list (plain_of_all (named ids.old) args.now) (R.says row)) }
    ensures keeps { Keeps ids.old ids.new }
{
    let Some(integers) = one_list_of_integers(alloc, args)? else {
        return Err(CallFault::Script(Fault::WrongType));
    };
    deliver(alloc, ids, row.tell(alloc, integers.as_slice()))
}

/// A row of integers, as one list or as the arguments.
pub fn of_list_or_integers<R: OfIntegers + Copy>(
    alloc: Global,
    ids: &mut Ids,
    row: R,
    args: &[Value],
) -> Result<Value, CallFault>
    ensures reply { Replies result ids.new (of_list_or_integers (plain_of_all (named ids.old) args.now) (R.says row)) }
    ensures keeps { Keeps ids.old ids.new }
{
    let Some(integers) = list_or_integers(alloc, args)? else {
        return Err(CallFault::Script(Fault::WrongType));
    };
    deliver(alloc, ids, row.tell(alloc, integers.as_slice()))
}

/// A row of one semigroup that asks for nothing.
pub fn of_generators<R: OfGenerators + Copy>(
    alloc: Global,
    ids: &mut Ids,
    row: R,
    args: &[Value],
) -> Result<Value, CallFault>
    requires { AllKnownIn (named ids.old) args.now }
    ensures reply { Replies result ids.new (of_semigroup [] (plain_of_all (named ids.old) args.now) (R.says row)) }
    ensures keeps { Keeps ids.old ids.new }
{
    let Some(generators) = one_list_of_generators(ids, args) else {
        return Err(CallFault::Script(Fault::WrongType));
    };
    let told = row.tell(alloc, generators);
    deliver(alloc, ids, told)
}

/// A row of one semigroup that asks for its table.
pub fn of_table<R: OfTable + Copy>(
    alloc: Global,
    store: &mut Store,
    row: R,
    args: &[Value],
) -> Result<Value, CallFault>
    requires { AllKnownIn (named store.old.ids) args.now }
    ensures reply { Replies result store.new.ids (of_semigroup (apery_table ∷ []) (plain_of_all (named store.old.ids) args.now) (R.says row)) }
    ensures keeps { Keeps store.old.ids store.new.ids }
    ensures asked { Asked result (early_of (of_semigroup (apery_table ∷ []) (plain_of_all (named store.old.ids) args.now) (R.says row))) store.old.attributes store.new.attributes }
{
    let Some(table) = one_table(alloc, store, args)? else {
        return Err(CallFault::Script(Fault::WrongType));
    };
    deliver(alloc, &mut store.ids, row.tell(alloc, &table))
}

/// A row of one semigroup that asks for its pseudo-Frobenius numbers.
pub fn of_numbers<R: OfNumbers + Copy>(
    alloc: Global,
    store: &mut Store,
    row: R,
    args: &[Value],
) -> Result<Value, CallFault>
    requires { AllKnownIn (named store.old.ids) args.now }
    ensures reply { Replies result store.new.ids (of_semigroup (pseudo_frobenius ∷ []) (plain_of_all (named store.old.ids) args.now) (R.says row)) }
    ensures keeps { Keeps store.old.ids store.new.ids }
    ensures asked { Asked result (early_of (of_semigroup (pseudo_frobenius ∷ []) (plain_of_all (named store.old.ids) args.now) (R.says row))) store.old.attributes store.new.attributes }
{
    let Some(numbers) = one_list_of_numbers(alloc, store, args)? else {
        return Err(CallFault::Script(Fault::WrongType));
    };
    deliver(alloc, &mut store.ids, row.tell(alloc, &numbers))
}

/// A row of one semigroup that asks for its table and its pseudo-Frobenius numbers.
pub fn of_table_and_numbers<R: OfTableAndNumbers + Copy>(
    alloc: Global,
    store: &mut Store,
    row: R,
    args: &[Value],
) -> Result<Value, CallFault>
    requires { AllKnownIn (named store.old.ids) args.now }
    ensures reply { Replies result store.new.ids (of_semigroup (apery_table ∷ pseudo_frobenius ∷ []) (plain_of_all (named store.old.ids) args.now) (R.says row)) }
    ensures keeps { Keeps store.old.ids store.new.ids }
    ensures asked { Asked result (early_of (of_semigroup (apery_table ∷ pseudo_frobenius ∷ []) (plain_of_all (named store.old.ids) args.now) (R.says row))) store.old.attributes store.new.attributes }
{
    let Some((table, numbers)) = one_table_and_numbers(alloc, store, args)? else {
        return Err(CallFault::Script(Fault::WrongType));
    };
    deliver(alloc, &mut store.ids, row.tell(alloc, &table, &numbers))
}

/// A row of a semigroup and an integer, in either order, that asks for the table.
pub fn of_table_and_integer<R: OfTableAndInteger + Copy>(
    alloc: Global,
    store: &mut Store,
    row: R,
    args: &[Value],
) -> Result<Value, CallFault>
    requires { AllKnownIn (named store.old.ids) args.now }
    ensures reply { Replies result store.new.ids (of_semigroup_and_integer (apery_table ∷ []) (plain_of_all (named store.old.ids) args.now) (R.says row)) }
    ensures keeps { Keeps store.old.ids store.new.ids }
    ensures asked { Asked result (early_of (of_semigroup_and_integer (apery_table ∷ []) (plain_of_all (named store.old.ids) args.now) (R.says row))) store.old.attributes store.new.attributes }
{
    if args.len() != 2 {
        return Err(CallFault::Script(Fault::WrongType));
    }
    let Some((table, n)) = table_and_integer(alloc, store, &args[0], &args[1])? else {
        return Err(CallFault::Script(Fault::WrongType));
    };
    deliver(alloc, &mut store.ids, row.tell(alloc, &table, n))
}
