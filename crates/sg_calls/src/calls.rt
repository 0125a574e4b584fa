//! What commands answer.

ghost use Rattle.std.specs.Prelude.{◌≡◌, true, None, length, slice_get};
ghost use Rattle.sg_value.specs.Known.{Known, named};
ghost use Rattle.sg_value.specs.Plain.{AllKnownIn, plain_of_all};
ghost use Rattle.sg_store.specs.Interned.{Keeps};
ghost use Rattle.sg_calls.specs.Commands.{checked, command_named, takes};
ghost use Rattle.sg_calls.specs.After.{Asked, Asks};
ghost use Rattle.sg_calls.specs.Early.{early_of};
ghost use Rattle.sg_calls.specs.Rows.{row, shared_case};
ghost use Rattle.sg_rows.specs.Replies.{Replies};
ghost use Rattle.sg_calls.specs.Answers.{case_of};

use crate::asks::{one_list_of_generators, two_tables};
use crate::command::{Command, Shared, command_named};
use crate::delivering::deliver;
use crate::families::{on_factorizations, on_facts, on_ideals, on_lists, on_makers, on_shapes};
use crate::presentations::on_presentations;
use crate::tames::on_tames;
use sg_rows::{CallFault, Fault, OfGenerators, one_semigroup};
use sg_rows_constructors::intersection;
use sg_rows_factorizations::{ElementFact, FactorizationCommand};
use sg_rows_ideals::{IdealCommand, IdealFact, Pair};
use sg_rows_invariants::GeneratorsFact;
use sg_rows_presentations::{PresentationCommand, PresentationFact};
use sg_store::Store;
use sg_value::Value;
use std::alloc::Global;

/// The members of both semigroups, or else of both ideals.
fn of_intersection(alloc: Global, store: &mut Store, args: &[Value]) -> Result<Value, CallFault>
    requires known { AllKnownIn (named store.old.ids) args.now }
    requires count { length args.now ≡ 2 }
    ensures reply { Replies result store.new.ids (shared_case Shared.Intersection (plain_of_all (named store.old.ids) args.now)) }
    ensures keeps { Keeps store.old.ids store.new.ids }
    ensures asked { Asked result (early_of (shared_case Shared.Intersection (plain_of_all (named store.old.ids) args.now))) store.old.attributes store.new.attributes }
{
    match two_tables(alloc, store, &args[0], &args[1])? {
        Some((one, other)) => deliver(alloc, &mut store.ids, intersection(alloc, &one, &other)),
        None => on_ideals(
            alloc,
            store,
            IdealCommand::OfTwoIdeals(Pair::Intersection),
            args,
        ),
    }
}

/// The minimal generators of a semigroup, or else of an ideal.
fn of_minimal_generators(
    alloc: Global,
    store: &mut Store,
    args: &[Value],
) -> Result<Value, CallFault>
    requires { AllKnownIn (named store.old.ids) args.now }
    ensures reply { Replies result store.new.ids (shared_case Shared.MinimalGenerators (plain_of_all (named store.old.ids) args.now)) }
    ensures keeps { Keeps store.old.ids store.new.ids }
    ensures asked { Asked result (early_of (shared_case Shared.MinimalGenerators (plain_of_all (named store.old.ids) args.now))) store.old.attributes store.new.attributes }
{
    let Some(generators) = one_list_of_generators(&store.ids, args) else {
        return on_ideals(
            alloc,
            store,
            IdealCommand::OfIdeal(IdealFact::Generators),
            args,
        );
    };
    let told = GeneratorsFact::MinimalGenerators.tell(alloc, generators);
    deliver(alloc, &mut store.ids, told)
}

/// The catenary degree of a semigroup, or else of an element of one.
fn of_catenary_degree(alloc: Global, store: &mut Store, args: &[Value]) -> Result<Value, CallFault>
    requires { AllKnownIn (named store.old.ids) args.now }
    ensures reply { Replies result store.new.ids (shared_case Shared.CatenaryDegree (plain_of_all (named store.old.ids) args.now)) }
    ensures keeps { Keeps store.old.ids store.new.ids }
    ensures asks { Asks result (shared_case Shared.CatenaryDegree (plain_of_all (named store.old.ids) args.now)) store.old.attributes store.new.attributes }
{
    match one_semigroup(args) {
        Some(_) => on_presentations(
            alloc,
            store,
            PresentationCommand::OfPresentation(PresentationFact::CatenaryDegree),
            args,
        ),
        None => on_factorizations(
            alloc,
            store,
            FactorizationCommand::OfElement(ElementFact::CatenaryDegree),
            args,
        ),
    }
}

/// The commands that semigroups have in common with ideals or with elements.
fn on_shared(
    alloc: Global,
    store: &mut Store,
    shared: Shared,
    args: &[Value],
) -> Result<Value, CallFault>
    requires count { takes (Command.Shared shared) (length args.now) ≡ true }
    requires known { AllKnownIn (named store.old.ids) args.now }
    ensures reply { Replies result store.new.ids (shared_case shared (plain_of_all (named store.old.ids) args.now)) }
    ensures keeps { Keeps store.old.ids store.new.ids }
    ensures asks { Asks result (shared_case shared (plain_of_all (named store.old.ids) args.now)) store.old.attributes store.new.attributes }
{
    match shared {
        Shared::CatenaryDegree => of_catenary_degree(alloc, store, args),
        Shared::Intersection => of_intersection(alloc, store, args),
        Shared::MinimalGenerators => of_minimal_generators(alloc, store, args),
    }
}

/// What the row of a command answers, within a budget of steps that no row counts yet. Known ids go on to stand for what
/// they stood for, and each id in the value is known. What the row asks for at once is asked for in its order, also where
/// the row refuses, and what it asks for late once its arguments are neither too large nor bad.
pub fn perform(
    alloc: Global,
    store: &mut Store,
    command: Command,
    args: &[Value],
    budget: u64,
) -> Result<Value, CallFault>
    requires count { takes command (length args.now) ≡ true }
    requires known { AllKnownIn (named store.old.ids) args.now }
    ensures reply { Replies result store.new.ids (row budget command (plain_of_all (named store.old.ids) args.now)) }
    ensures keeps { Keeps store.old.ids store.new.ids }
    ensures asks { Asks result (row budget command (plain_of_all (named store.old.ids) args.now)) store.old.attributes store.new.attributes }
{
    match command {
        Command::Lists(command) => on_lists(alloc, &mut store.ids, command, args),
        Command::Makers(maker) => on_makers(alloc, store, maker, args),
        Command::Facts(fact) => on_facts(alloc, store, fact, args),
        Command::Shapes(shape) => on_shapes(alloc, store, shape, args),
        Command::Ideals(command) => on_ideals(alloc, store, command, args),
        Command::Factorizations(command) => on_factorizations(alloc, store, command, args),
        Command::Presentations(command) => on_presentations(alloc, store, command, args),
        Command::Tames(command) => on_tames(alloc, store, command, args),
        Command::Shared(shared) => on_shared(alloc, store, shared, args),
    }
}

/// What a command answers: its value, or the first refusal that comes once its name and the number of its arguments
/// are right. Known ids go on to stand for what they stood for, and each id in the value is known. What the row asks for
/// at once is asked for in its order, also where the row refuses, and what it asks for late once its arguments are neither
/// too large nor bad.
pub fn answer(
    alloc: Global,
    store: &mut Store,
    command: &[u8],
    args: &[Value],
    budget: u64,
) -> Result<Value, CallFault>
    requires checked { checked command.now (length args.now) ≡ None }
    requires known { AllKnownIn (named store.old.ids) args.now }
    ensures reply { Replies result store.new.ids (case_of budget (command_named command.now) (plain_of_all (named store.old.ids) args.now)) }
    ensures keeps { Keeps store.old.ids store.new.ids }
    ensures asks { Asks result (case_of budget (command_named command.now) (plain_of_all (named store.old.ids) args.now)) store.old.attributes store.new.attributes }
{
    match command_named(command) {
        Some(found) => perform(alloc, store, found, args, budget),
        None => Err(CallFault::Script(Fault::UnknownName)),
    }
}
