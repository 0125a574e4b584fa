//! The operator `in`.

ghost use Rattle.std.specs.Prelude.{◌≡◌, ◌↔◌, IsTrue, [], ◌∷◌};
ghost use Rattle.sg_value.specs.Known.{named};
ghost use Rattle.sg_value.specs.Plain.{AllKnown, AllKnownIn, plain, plain_of_all};
ghost use Rattle.sg_rows.specs.Asks.{apery_table};
ghost use Rattle.sg_rows.specs.Replies.{Replies};
ghost use Rattle.sg_rows.specs.Entries.{IsEntry};
ghost use Rattle.sg_rows.specs.Forms.{on_integer_and_ideal};
ghost use Rattle.sg_rows_ideals.specs.Rows.{member_row};
ghost use Rattle.sg_calls.specs.After.{Asked};
ghost use Rattle.sg_calls.specs.Early.{early_of};
ghost use Rattle.sg_calls.specs.Operations.{membership};

use crate::asks::{integer_then_table, table_of_ideal};
use sg_rows::{CallFault, Fault, entries_of, integer_then_ideal};
use sg_rows_ideals::is_member;
use sg_store::{Ids, Store};
use sg_value::Value;
use std::alloc::Global;

/// Whether the value is an entry of the list.
fn is_among(ids: &Ids, v: &Value, entries: &[Value]) -> bool
    requires value { AllKnown (named ids.now) v.now }
    requires entries { AllKnownIn (named ids.now) entries.now }
    ensures { IsTrue result ↔ IsEntry (plain (named ids.now) v.now) (plain_of_all (named ids.now) entries.now) }
{
    for entry in entries {
        if ids.equal(v, entry) {
            return true;
        }
    }
    false
}

/// Whether the integer is a member of the ideal.
fn is_in_ideal(
    alloc: Global,
    store: &mut Store,
    v: &Value,
    whole: &Value,
) -> Result<Value, CallFault>
    requires { AllKnown (named store.old.ids) whole.now }
    ensures reply { Replies result store.new.ids (on_integer_and_ideal (apery_table ∷ []) (plain (named store.old.ids) v.now) (plain (named store.old.ids) whole.now) member_row) }
    ensures ids { store.new.ids ≡ store.old.ids }
    ensures asked { Asked result (early_of (on_integer_and_ideal (apery_table ∷ []) (plain (named store.old.ids) v.now) (plain (named store.old.ids) whole.now) member_row)) store.old.attributes store.new.attributes }
{
    let Some((x, id)) = integer_then_ideal(v, whole) else {
        return Err(CallFault::Script(Fault::WrongType));
    };
    let table = table_of_ideal(alloc, store, id)?;
    let generators = store.ids.ideal_generators(id).as_slice();
    Ok(Value::Bool(is_member(x, &table, generators)))
}

/// Whether a list has the value as an entry, or a semigroup or an ideal the integer as a member.
pub fn member(
    alloc: Global,
    store: &mut Store,
    v: &Value,
    whole: &Value,
) -> Result<Value, CallFault>
    requires value { AllKnown (named store.old.ids) v.now }
    requires whole { AllKnown (named store.old.ids) whole.now }
    ensures reply { Replies result store.new.ids (membership (plain (named store.old.ids) v.now) (plain (named store.old.ids) whole.now)) }
    ensures ids { store.new.ids ≡ store.old.ids }
    ensures asked { Asked result (early_of (membership (plain (named store.old.ids) v.now) (plain (named store.old.ids) whole.now))) store.old.attributes store.new.attributes }
{
    if let Some(entries) = entries_of(whole) {
        return Ok(Value::Bool(is_among(&store.ids, v, entries)));
    }
    match integer_then_table(alloc, store, v, whole)? {
        Some((x, table)) => Ok(Value::Bool(table.contains(x))),
        None => is_in_ideal(alloc, store, v, whole),
    }
}
