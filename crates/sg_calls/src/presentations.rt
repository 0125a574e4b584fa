//! The commands that ask for the presentation of a semigroup. They do so only where the row refuses nothing, so that a
//! semigroup whose presentation would be too large is never asked for it.

ghost use Rattle.sg_value.specs.Known.{named};
ghost use Rattle.sg_value.specs.Plain.{AllKnownIn, plain_of_all};
ghost use Rattle.sg_store.specs.Interned.{Keeps};
ghost use Rattle.sg_rows.specs.Replies.{Replies};
ghost use Rattle.sg_calls.specs.After.{Asks};
ghost use Rattle.sg_rows_presentations.specs.Commands as presentations;
ghost use Rattle.sg_rows_presentations.specs.Rows.{presentation_row};
ghost use Rattle.std.specs.Prelude.{[], ◌∷◌};
ghost use Rattle.sg_rows.specs.Asks.{apery_table};
ghost use Rattle.sg_rows.specs.Forms.{of_semigroup};

use crate::delivering::deliver;
use crate::forms::of_generators;
use sg_rows::{CallFault, Fault, one_semigroup};
use sg_rows_presentations::{LeastDelta, PresentationCommand, PresentationFact};
use sg_store::Store;
use sg_value::Value;
use std::alloc::Global;

/// A fact of the presentation of a semigroup.
fn of_presentation(
    alloc: Global,
    store: &mut Store,
    fact: PresentationFact,
    args: &[Value],
) -> Result<Value, CallFault>
    requires { AllKnownIn (named store.old.ids) args.now }
    ensures reply { Replies result store.new.ids (of_semigroup (apery_table ∷ []) (plain_of_all (named store.old.ids) args.now) (presentation_row fact)) }
    ensures keeps { Keeps store.old.ids store.new.ids }
    ensures asks { Asks result (of_semigroup (apery_table ∷ []) (plain_of_all (named store.old.ids) args.now) (presentation_row fact)) store.old.attributes store.new.attributes }
{
    let Some(id) = one_semigroup(args) else {
        return Err(CallFault::Script(Fault::WrongType));
    };
    let table = store.table(alloc, id)?;
    if let Err(fault) = fact.check(&table) {
        return Err(CallFault::Script(fault));
    }
    let relations = store.presentation(alloc, id)?;
    deliver(alloc, &mut store.ids, fact.tell(alloc, &table, &relations))
}

/// The commands on the minimal presentation of a numerical semigroup, and on all its factorizations.
pub fn on_presentations(
    alloc: Global,
    store: &mut Store,
    command: PresentationCommand,
    args: &[Value],
) -> Result<Value, CallFault>
    requires { AllKnownIn (named store.old.ids) args.now }
    ensures reply { Replies result store.new.ids (presentations.case_of command (plain_of_all (named store.old.ids) args.now)) }
    ensures keeps { Keeps store.old.ids store.new.ids }
    ensures asks { Asks result (presentations.case_of command (plain_of_all (named store.old.ids) args.now)) store.old.attributes store.new.attributes }
{
    match command {
        PresentationCommand::OfPresentation(fact) => of_presentation(alloc, store, fact, args),
        PresentationCommand::LeastDelta => of_generators(alloc, &mut store.ids, LeastDelta, args),
    }
}
