//! Each family of commands over the arguments of a call. A command that is told like another of its family stands in the
//! family's crate alone.

ghost use Rattle.sg_value.specs.Known.{named};
ghost use Rattle.sg_value.specs.Plain.{AllKnownIn, plain_of_all};
ghost use Rattle.sg_store.specs.Interned.{Keeps};
ghost use Rattle.std.specs.Prelude.{[], ◌∷◌};
ghost use Rattle.sg_rows.specs.Asks.{apery_table};
ghost use Rattle.sg_rows.specs.Forms.{of_ideal, of_list_then_semigroup, of_semigroup_then_integer, of_three_integers, of_two_ideals, of_two_integers, of_two_semigroups};
ghost use Rattle.sg_rows.specs.Replies.{Replies};
ghost use Rattle.sg_calls.specs.After.{Asked};
ghost use Rattle.sg_calls.specs.Early.{early_of};
ghost use Rattle.sg_rows_lists.specs.Lists as lists;
ghost use Rattle.sg_rows_constructors.specs.Makers as makers;
ghost use Rattle.sg_rows_constructors.specs.Rows.{modular_row, proportional_row, intersection_row, quotient_row};
ghost use Rattle.sg_rows_invariants.specs.Facts as facts;
ghost use Rattle.sg_rows_symmetry.specs.Shapes as shapes;
ghost use Rattle.sg_rows_ideals.specs.Ideals as ideals;
ghost use Rattle.sg_rows_factorizations.specs.Commands as factorizations;
ghost use Rattle.sg_rows_ideals.specs.Rows.{fact_row, generated_row, pair_row};

use crate::asks::{
    integer_then_table, list_then_table, one_ideal_by_lists, one_table, two_ideals, two_tables,
};
use crate::delivering::deliver;
use crate::forms::{
    of_generators, of_list, of_list_or_integers, of_numbers, of_table, of_table_and_integer,
    of_table_and_numbers,
};
use sg_rows::{CallFault, Fault, OfTable, one_list, three_integers, two_integers};
use sg_rows_constructors::{Maker, intersection, modular, proportional, quotient_by};
use sg_rows_factorizations::{ElementFact, FactorizationCommand, OmegaOfSemigroup};
use sg_rows_ideals::{IdealCommand, IdealFact, Pair, fact_of, generated, pair_of};
use sg_rows_invariants::{AperyModulo, Fact, TableFact};
use sg_rows_lists::{ListCommand, concatenation_of, length_of};
use sg_rows_symmetry::Shape;
use sg_store::{Ids, Store};
use sg_value::Value;
use std::alloc::Global;

/// The number of entries of one list.
fn of_length(alloc: Global, ids: &mut Ids, args: &[Value]) -> Result<Value, CallFault>
    ensures reply { Replies result ids.new (lists.case_of ListCommand.Length (plain_of_all (named ids.old) args.now)) }
    ensures keeps { Keeps ids.old ids.new }
{
    let Some(entries) = one_list(args) else {
        return Err(CallFault::Script(Fault::WrongType));
    };
    deliver(alloc, ids, Ok(length_of(entries)))
}

/// The commands on lists and integers.
pub fn on_lists(
    alloc: Global,
    ids: &mut Ids,
    command: ListCommand,
    args: &[Value],
) -> Result<Value, CallFault>
    requires { AllKnownIn (named ids.old) args.now }
    ensures reply { Replies result ids.new (lists.case_of command (plain_of_all (named ids.old) args.now)) }
    ensures keeps { Keeps ids.old ids.new }
{
    match command {
        ListCommand::OfList(fact) => of_list(alloc, ids, fact, args),
        ListCommand::OfListOrIntegers(fact) => of_list_or_integers(alloc, ids, fact, args),
        ListCommand::Length => of_length(alloc, ids, args),
        ListCommand::Concatenation => concatenation_of(alloc, args),
    }
}

/// The modular semigroup of two integers.
fn of_modular(alloc: Global, ids: &mut Ids, args: &[Value]) -> Result<Value, CallFault>
    ensures reply { Replies result ids.new (of_two_integers (plain_of_all (named ids.old) args.now) modular_row) }
    ensures keeps { Keeps ids.old ids.new }
{
    if args.len() != 2 {
        return Err(CallFault::Script(Fault::WrongType));
    }
    let Some((a, b)) = two_integers(&args[0], &args[1]) else {
        return Err(CallFault::Script(Fault::WrongType));
    };
    deliver(alloc, ids, modular(alloc, a, b))
}

/// The proportionally modular semigroup of three integers.
fn of_proportional(alloc: Global, ids: &mut Ids, args: &[Value]) -> Result<Value, CallFault>
    ensures reply { Replies result ids.new (of_three_integers (plain_of_all (named ids.old) args.now) proportional_row) }
    ensures keeps { Keeps ids.old ids.new }
{
    let Some((a, (b, c))) = three_integers(args) else {
        return Err(CallFault::Script(Fault::WrongType));
    };
    deliver(alloc, ids, proportional(alloc, a, b, c))
}

/// The quotient of a semigroup by an integer.
fn of_quotient(alloc: Global, store: &mut Store, args: &[Value]) -> Result<Value, CallFault>
    requires { AllKnownIn (named store.old.ids) args.now }
    ensures reply { Replies result store.new.ids (of_semigroup_then_integer (apery_table ∷ []) (plain_of_all (named store.old.ids) args.now) quotient_row) }
    ensures keeps { Keeps store.old.ids store.new.ids }
    ensures asked { Asked result (early_of (of_semigroup_then_integer (apery_table ∷ []) (plain_of_all (named store.old.ids) args.now) quotient_row)) store.old.attributes store.new.attributes }
{
    if args.len() != 2 {
        return Err(CallFault::Script(Fault::WrongType));
    }
    let Some((divisor, table)) = integer_then_table(alloc, store, &args[1], &args[0])? else {
        return Err(CallFault::Script(Fault::WrongType));
    };
    deliver(alloc, &mut store.ids, quotient_by(alloc, &table, divisor))
}

/// The intersection of two semigroups.
fn of_intersection(alloc: Global, store: &mut Store, args: &[Value]) -> Result<Value, CallFault>
    requires { AllKnownIn (named store.old.ids) args.now }
    ensures reply { Replies result store.new.ids (of_two_semigroups (apery_table ∷ []) (plain_of_all (named store.old.ids) args.now) intersection_row) }
    ensures keeps { Keeps store.old.ids store.new.ids }
    ensures asked { Asked result (early_of (of_two_semigroups (apery_table ∷ []) (plain_of_all (named store.old.ids) args.now) intersection_row)) store.old.attributes store.new.attributes }
{
    if args.len() != 2 {
        return Err(CallFault::Script(Fault::WrongType));
    }
    let Some((one, other)) = two_tables(alloc, store, &args[0], &args[1])? else {
        return Err(CallFault::Script(Fault::WrongType));
    };
    deliver(alloc, &mut store.ids, intersection(alloc, &one, &other))
}

/// The commands that make a numerical semigroup.
pub fn on_makers(
    alloc: Global,
    store: &mut Store,
    maker: Maker,
    args: &[Value],
) -> Result<Value, CallFault>
    requires { AllKnownIn (named store.old.ids) args.now }
    ensures reply { Replies result store.new.ids (makers.case_of maker (plain_of_all (named store.old.ids) args.now)) }
    ensures keeps { Keeps store.old.ids store.new.ids }
    ensures asked { Asked result (early_of (makers.case_of maker (plain_of_all (named store.old.ids) args.now))) store.old.attributes store.new.attributes }
{
    match maker {
        Maker::OfList(maker) => of_list(alloc, &mut store.ids, maker, args),
        Maker::OfListOrIntegers(maker) => of_list_or_integers(alloc, &mut store.ids, maker, args),
        Maker::Modular => of_modular(alloc, &mut store.ids, args),
        Maker::ProportionallyModular => of_proportional(alloc, &mut store.ids, args),
        Maker::Intersection => of_intersection(alloc, store, args),
        Maker::Quotient => of_quotient(alloc, store, args),
    }
}

/// The Apery list of a semigroup, modulo the multiplicity or modulo an integer that is given.
fn of_apery(alloc: Global, store: &mut Store, args: &[Value]) -> Result<Value, CallFault>
    requires { AllKnownIn (named store.old.ids) args.now }
    ensures reply { Replies result store.new.ids (facts.case_of Fact.AperyList (plain_of_all (named store.old.ids) args.now)) }
    ensures keeps { Keeps store.old.ids store.new.ids }
    ensures asked { Asked result (early_of (facts.case_of Fact.AperyList (plain_of_all (named store.old.ids) args.now))) store.old.attributes store.new.attributes }
{
    match one_table(alloc, store, args)? {
        Some(table) => deliver(
            alloc,
            &mut store.ids,
            TableFact::AperyList.tell(alloc, &table),
        ),
        None => of_table_and_integer(alloc, store, AperyModulo, args),
    }
}

/// The commands that tell facts of a numerical semigroup.
pub fn on_facts(
    alloc: Global,
    store: &mut Store,
    fact: Fact,
    args: &[Value],
) -> Result<Value, CallFault>
    requires { AllKnownIn (named store.old.ids) args.now }
    ensures reply { Replies result store.new.ids (facts.case_of fact (plain_of_all (named store.old.ids) args.now)) }
    ensures keeps { Keeps store.old.ids store.new.ids }
    ensures asked { Asked result (early_of (facts.case_of fact (plain_of_all (named store.old.ids) args.now))) store.old.attributes store.new.attributes }
{
    match fact {
        Fact::OfGenerators(fact) => of_generators(alloc, &mut store.ids, fact, args),
        Fact::OfTable(fact) => of_table(alloc, store, fact, args),
        Fact::OfNumbers(fact) => of_numbers(alloc, store, fact, args),
        Fact::OfBoth(fact) => of_table_and_numbers(alloc, store, fact, args),
        Fact::AperyList => of_apery(alloc, store, args),
    }
}

/// The commands on the shape of a numerical semigroup.
pub fn on_shapes(
    alloc: Global,
    store: &mut Store,
    shape: Shape,
    args: &[Value],
) -> Result<Value, CallFault>
    requires { AllKnownIn (named store.old.ids) args.now }
    ensures reply { Replies result store.new.ids (shapes.case_of shape (plain_of_all (named store.old.ids) args.now)) }
    ensures keeps { Keeps store.old.ids store.new.ids }
    ensures asked { Asked result (early_of (shapes.case_of shape (plain_of_all (named store.old.ids) args.now))) store.old.attributes store.new.attributes }
{
    match shape {
        Shape::TestOfGenerators(test) => of_generators(alloc, &mut store.ids, test, args),
        Shape::TestOfTable(test) => of_table(alloc, store, test, args),
        Shape::Closure(closure) => of_table(alloc, store, closure, args),
        Shape::Decomposition(parts) => of_table_and_numbers(alloc, store, parts, args),
    }
}

/// A fact of one ideal.
fn of_ideal_fact(
    alloc: Global,
    ids: &mut Ids,
    fact: IdealFact,
    args: &[Value],
) -> Result<Value, CallFault>
    requires { AllKnownIn (named ids.old) args.now }
    ensures reply { Replies result ids.new (of_ideal [] (plain_of_all (named ids.old) args.now) (fact_row fact)) }
    ensures keeps { Keeps ids.old ids.new }
{
    let Some((ambient, generators)) = one_ideal_by_lists(ids, args) else {
        return Err(CallFault::Script(Fault::WrongType));
    };
    let told = fact_of(fact, ambient, generators);
    deliver(alloc, ids, told)
}

/// The ideal that a list of integers generates over a semigroup.
fn of_generated(alloc: Global, store: &mut Store, args: &[Value]) -> Result<Value, CallFault>
    requires { AllKnownIn (named store.old.ids) args.now }
    ensures reply { Replies result store.new.ids (of_list_then_semigroup (apery_table ∷ []) (plain_of_all (named store.old.ids) args.now) generated_row) }
    ensures keeps { Keeps store.old.ids store.new.ids }
    ensures asked { Asked result (early_of (of_list_then_semigroup (apery_table ∷ []) (plain_of_all (named store.old.ids) args.now) generated_row)) store.old.attributes store.new.attributes }
{
    if args.len() != 2 {
        return Err(CallFault::Script(Fault::WrongType));
    }
    let Some((given, table)) = list_then_table(alloc, store, &args[0], &args[1])? else {
        return Err(CallFault::Script(Fault::WrongType));
    };
    deliver(
        alloc,
        &mut store.ids,
        generated(alloc, given.as_slice(), &table),
    )
}

/// An ideal of two.
fn of_pair(alloc: Global, store: &mut Store, pair: Pair, args: &[Value]) -> Result<Value, CallFault>
    requires { AllKnownIn (named store.old.ids) args.now }
    ensures reply { Replies result store.new.ids (of_two_ideals (apery_table ∷ []) (plain_of_all (named store.old.ids) args.now) (pair_row pair)) }
    ensures keeps { Keeps store.old.ids store.new.ids }
    ensures asked { Asked result (early_of (of_two_ideals (apery_table ∷ []) (plain_of_all (named store.old.ids) args.now) (pair_row pair))) store.old.attributes store.new.attributes }
{
    if args.len() != 2 {
        return Err(CallFault::Script(Fault::WrongType));
    }
    let Some(((table, one), (_, other))) = two_ideals(alloc, store, &args[0], &args[1])? else {
        return Err(CallFault::Script(Fault::WrongType));
    };
    deliver(
        alloc,
        &mut store.ids,
        pair_of(alloc, pair, &table, &one, &other),
    )
}

/// The commands on relative ideals.
pub fn on_ideals(
    alloc: Global,
    store: &mut Store,
    command: IdealCommand,
    args: &[Value],
) -> Result<Value, CallFault>
    requires { AllKnownIn (named store.old.ids) args.now }
    ensures reply { Replies result store.new.ids (ideals.case_of command (plain_of_all (named store.old.ids) args.now)) }
    ensures keeps { Keeps store.old.ids store.new.ids }
    ensures asked { Asked result (early_of (ideals.case_of command (plain_of_all (named store.old.ids) args.now))) store.old.attributes store.new.attributes }
{
    match command {
        IdealCommand::OfIdeal(fact) => of_ideal_fact(alloc, &mut store.ids, fact, args),
        IdealCommand::OfTable(ideal) => of_table(alloc, store, ideal, args),
        IdealCommand::OfBoth(ideal) => of_table_and_numbers(alloc, store, ideal, args),
        IdealCommand::Generated => of_generated(alloc, store, args),
        IdealCommand::OfTwoIdeals(pair) => of_pair(alloc, store, pair, args),
    }
}

/// The omega primality of a semigroup, or else of a member of one.
fn of_omega(alloc: Global, store: &mut Store, args: &[Value]) -> Result<Value, CallFault>
    requires { AllKnownIn (named store.old.ids) args.now }
    ensures reply { Replies result store.new.ids (factorizations.case_of FactorizationCommand.OmegaPrimality (plain_of_all (named store.old.ids) args.now)) }
    ensures keeps { Keeps store.old.ids store.new.ids }
    ensures asked { Asked result (early_of (factorizations.case_of FactorizationCommand.OmegaPrimality (plain_of_all (named store.old.ids) args.now))) store.old.attributes store.new.attributes }
{
    match one_table(alloc, store, args)? {
        Some(table) => deliver(alloc, &mut store.ids, OmegaOfSemigroup.tell(alloc, &table)),
        None => of_table_and_integer(alloc, store, ElementFact::OmegaPrimality, args),
    }
}

/// The commands on factorizations of elements.
pub fn on_factorizations(
    alloc: Global,
    store: &mut Store,
    command: FactorizationCommand,
    args: &[Value],
) -> Result<Value, CallFault>
    requires { AllKnownIn (named store.old.ids) args.now }
    ensures reply { Replies result store.new.ids (factorizations.case_of command (plain_of_all (named store.old.ids) args.now)) }
    ensures keeps { Keeps store.old.ids store.new.ids }
    ensures asked { Asked result (early_of (factorizations.case_of command (plain_of_all (named store.old.ids) args.now))) store.old.attributes store.new.attributes }
{
    match command {
        FactorizationCommand::OfGenerators(fact) => {
            of_generators(alloc, &mut store.ids, fact, args)
        }
        FactorizationCommand::OfElement(fact) => of_table_and_integer(alloc, store, fact, args),
        FactorizationCommand::OmegaPrimality => of_omega(alloc, store, args),
    }
}
