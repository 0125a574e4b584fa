//! The commands that ask for the tame degree of a semigroup. They do so only where the semigroup is not too large: whether
//! there are too many factorizations is known from what was asked for.

ghost use Rattle.sg_value.specs.Known.{named};
ghost use Rattle.sg_value.specs.Plain.{AllKnownIn, plain_of_all};
ghost use Rattle.sg_store.specs.Interned.{Keeps};
ghost use Rattle.sg_rows.specs.Replies.{Replies};
ghost use Rattle.sg_calls.specs.After.{Asks};
ghost use Rattle.sg_rows_tame.specs.Commands as tames;
ghost use Rattle.sg_rows_tame.specs.Rows.{tame_row};
ghost use Rattle.std.specs.Prelude.{[], ◌∷◌};
ghost use Rattle.sg_rows.specs.Asks.{apery_table};
ghost use Rattle.sg_rows.specs.Forms.{of_semigroup};

use crate::delivering::deliver;
use sg_rows::{CallFault, Fault, one_semigroup};
use sg_rows_tame::{TameCommand, check, tell};
use sg_store::Store;
use sg_value::Value;
use std::alloc::Global;

/// The tame degree of a semigroup.
fn of_tame(alloc: Global, store: &mut Store, args: &[Value]) -> Result<Value, CallFault>
    requires { AllKnownIn (named store.old.ids) args.now }
    ensures reply { Replies result store.new.ids (of_semigroup (apery_table ∷ []) (plain_of_all (named store.old.ids) args.now) tame_row) }
    ensures keeps { Keeps store.old.ids store.new.ids }
    ensures asks { Asks result (of_semigroup (apery_table ∷ []) (plain_of_all (named store.old.ids) args.now) tame_row) store.old.attributes store.new.attributes }
{
    let Some(id) = one_semigroup(args) else {
        return Err(CallFault::Script(Fault::WrongType));
    };
    let table = store.table(alloc, id)?;
    if let Err(fault) = check(&table) {
        return Err(CallFault::Script(fault));
    }
    let answer = store.tame(alloc, id)?;
    deliver(alloc, &mut store.ids, tell(&table, *answer))
}

/// The commands on the tame degree of a numerical semigroup.
pub fn on_tames(
    alloc: Global,
    store: &mut Store,
    command: TameCommand,
    args: &[Value],
) -> Result<Value, CallFault>
    requires { AllKnownIn (named store.old.ids) args.now }
    ensures reply { Replies result store.new.ids (tames.case_of command (plain_of_all (named store.old.ids) args.now)) }
    ensures keeps { Keeps store.old.ids store.new.ids }
    ensures asks { Asks result (tames.case_of command (plain_of_all (named store.old.ids) args.now)) store.old.attributes store.new.attributes }
{
    match command {
        TameCommand::TameDegree => of_tame(alloc, store, args),
    }
}
