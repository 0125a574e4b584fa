//! Operators on their operands.

ghost use Rattle.std.specs.Prelude.{◌≡◌, pos, ℤ, MatchOption, SomeIff, FitsSigned};
ghost use Rattle.std.specs.Int.{w64};
ghost use Rattle.sg_value.specs.Data.{int};
ghost use Rattle.sg_value.specs.Known.{Known, named};
ghost use Rattle.sg_value.specs.Plain.{AllKnown, plain};
ghost use Rattle.sg_store.specs.Interned.{Keeps};
ghost use Rattle.sg_rows.specs.Values.{answers};
ghost use Rattle.sg_rows.specs.Replies.{Replies, RepliesOf};
ghost use Rattle.sg_calls.specs.After.{Asked, Asks};
ghost use Rattle.sg_calls.specs.Early.{early_of};
ghost use Rattle.sg_calls.specs.Operations.{calculation, of_integers, operation, addition, subtraction, multiplication, moved_or_generated, negation};
ghost use Rattle.sg_calls.specs.Remainders.{IsRemainder};

use crate::asks::{integer_then_ideal, list_then_table, two_ideals};
use crate::delivering::deliver;
use crate::membership::member;
use crate::operator::Operator;
use sg_rows::{CallFault, Fault, integer_of, two_integers};
use sg_rows_ideals::{Pair, generated, multiple_of, pair_of, translate_of};
use sg_store::Store;
use sg_value::Value;
use std::alloc::Global;

/// The remainder that is not negative, where there is one.
#[inline(always)]
pub fn remainder(x: i64, y: i64) -> Option<i64>
    ensures { MatchOption result (y ≡ pos 0) (IsRemainder x y) }
{
    if y == 0 {
        return None;
    }
    Some(x.wrapping_rem_euclid(y))
}

/// The integer, or that it is outside of 64 bits.
fn integer(found: Option<i64>) -> Result<Value, CallFault>
    ensures { (store : Known) (z : ℤ) → SomeIff found (FitsSigned w64 z) z → RepliesOf result store (answers (λ d. d ≡ int z)) }
{
    match found {
        Some(z) => Ok(Value::Int(z)),
        None => Err(CallFault::Script(Fault::Overflow)),
    }
}

/// What the operator gives of two integers.
#[inline(always)]
pub fn calculate(op: Operator, x: i64, y: i64) -> Result<Value, CallFault>
    ensures { (store : Known) → Replies result store (calculation op x y) }
{
    match op {
        Operator::Plus => integer(x.checked_add(y)),
        Operator::Less => integer(x.checked_sub(y)),
        Operator::Times => integer(x.checked_mul(y)),
        Operator::Mod => match remainder(x, y) {
            Some(z) => Ok(Value::Int(z)),
            None => Err(CallFault::Script(Fault::BadArgument)),
        },
        Operator::Lt => Ok(Value::Bool(x < y)),
        Operator::Le => Ok(Value::Bool(x <= y)),
        Operator::Gt => Ok(Value::Bool(x > y)),
        Operator::Ge => Ok(Value::Bool(x >= y)),
        Operator::Eq | Operator::Ne | Operator::Member => {
            Err(CallFault::Script(Fault::WrongType))
        }
    }
}

/// What the operator gives where both operands are integers.
fn on_integers(op: Operator, a: &Value, b: &Value) -> Result<Value, CallFault>
    ensures { (store : Known) → Replies result store (of_integers op (plain (named store) a.now) (plain (named store) b.now)) }
{
    match two_integers(a, b) {
        Some((x, y)) => calculate(op, x, y),
        None => Err(CallFault::Script(Fault::WrongType)),
    }
}

/// The sums of an integer and an ideal, or else the ideal that a list of integers generates over a semigroup.
fn on_ideal_or_list(
    alloc: Global,
    store: &mut Store,
    a: &Value,
    b: &Value,
) -> Result<Value, CallFault>
    requires right { AllKnown (named store.old.ids) b.now }
    ensures reply { Replies result store.new.ids (moved_or_generated (plain (named store.old.ids) a.now) (plain (named store.old.ids) b.now)) }
    ensures keeps { Keeps store.old.ids store.new.ids }
    ensures asked { Asked result (early_of (moved_or_generated (plain (named store.old.ids) a.now) (plain (named store.old.ids) b.now))) store.old.attributes store.new.attributes }
{
    if let Some((by, (table, ideal))) = integer_then_ideal(alloc, store, a, b)? {
        return deliver(
            alloc,
            &mut store.ids,
            translate_of(alloc, by, &table, &ideal),
        );
    }
    let Some((given, table)) = list_then_table(alloc, store, a, b)? else {
        return Err(CallFault::Script(Fault::WrongType));
    };
    deliver(
        alloc,
        &mut store.ids,
        generated(alloc, given.as_slice(), &table),
    )
}

/// The operator `+`: of two integers, of two ideals, of an integer and an ideal, or of a list of integers and a
/// semigroup.
fn plus(alloc: Global, store: &mut Store, a: &Value, b: &Value) -> Result<Value, CallFault>
    requires left { AllKnown (named store.old.ids) a.now }
    requires right { AllKnown (named store.old.ids) b.now }
    ensures reply { Replies result store.new.ids (addition (plain (named store.old.ids) a.now) (plain (named store.old.ids) b.now)) }
    ensures keeps { Keeps store.old.ids store.new.ids }
    ensures asked { Asked result (early_of (addition (plain (named store.old.ids) a.now) (plain (named store.old.ids) b.now))) store.old.attributes store.new.attributes }
{
    if let Some((x, y)) = two_integers(a, b) {
        return calculate(Operator::Plus, x, y);
    }
    match two_ideals(alloc, store, a, b)? {
        Some(((table, one), (_, other))) => {
            deliver(
                alloc,
                &mut store.ids,
                pair_of(alloc, Pair::Sum, &table, &one, &other),
            )
        }
        None => on_ideal_or_list(alloc, store, a, b),
    }
}

/// The operator `-`: of two integers, or of two ideals.
fn less(alloc: Global, store: &mut Store, a: &Value, b: &Value) -> Result<Value, CallFault>
    requires left { AllKnown (named store.old.ids) a.now }
    requires right { AllKnown (named store.old.ids) b.now }
    ensures reply { Replies result store.new.ids (subtraction (plain (named store.old.ids) a.now) (plain (named store.old.ids) b.now)) }
    ensures keeps { Keeps store.old.ids store.new.ids }
    ensures asked { Asked result (early_of (subtraction (plain (named store.old.ids) a.now) (plain (named store.old.ids) b.now))) store.old.attributes store.new.attributes }
{
    if let Some((x, y)) = two_integers(a, b) {
        return calculate(Operator::Less, x, y);
    }
    let Some(((table, one), (_, other))) = two_ideals(alloc, store, a, b)? else {
        return Err(CallFault::Script(Fault::WrongType));
    };
    deliver(
        alloc,
        &mut store.ids,
        pair_of(alloc, Pair::Difference, &table, &one, &other),
    )
}

/// The operator `*`: of two integers, or of an integer and an ideal.
fn times(alloc: Global, store: &mut Store, a: &Value, b: &Value) -> Result<Value, CallFault>
    requires right { AllKnown (named store.old.ids) b.now }
    ensures reply { Replies result store.new.ids (multiplication (plain (named store.old.ids) a.now) (plain (named store.old.ids) b.now)) }
    ensures keeps { Keeps store.old.ids store.new.ids }
    ensures asked { Asked result (early_of (multiplication (plain (named store.old.ids) a.now) (plain (named store.old.ids) b.now))) store.old.attributes store.new.attributes }
{
    if let Some((x, y)) = two_integers(a, b) {
        return calculate(Operator::Times, x, y);
    }
    let Some((factor, (table, ideal))) = integer_then_ideal(alloc, store, a, b)? else {
        return Err(CallFault::Script(Fault::WrongType));
    };
    deliver(
        alloc,
        &mut store.ids,
        multiple_of(alloc, factor, &table, &ideal),
    )
}

/// The integer with the other sign.
pub fn negate(a: &Value) -> Result<Value, CallFault>
    ensures { (store : Known) → Replies result store (negation (plain (named store) a.now)) }
{
    let Some(x) = integer_of(a) else {
        return Err(CallFault::Script(Fault::WrongType));
    };
    integer(0i64.checked_sub(x))
}

/// What an operator gives of its operands, within a budget of steps that none counts yet. What its row asks for is asked
/// for in its order, also where the row refuses.
pub fn combine(
    alloc: Global,
    store: &mut Store,
    op: Operator,
    a: &Value,
    b: &Value,
    budget: u64,
) -> Result<Value, CallFault>
    requires left { AllKnown (named store.old.ids) a.now }
    requires right { AllKnown (named store.old.ids) b.now }
    ensures reply { Replies result store.new.ids (operation budget op (plain (named store.old.ids) a.now) (plain (named store.old.ids) b.now)) }
    ensures keeps { Keeps store.old.ids store.new.ids }
    ensures asks { Asks result (operation budget op (plain (named store.old.ids) a.now) (plain (named store.old.ids) b.now)) store.old.attributes store.new.attributes }
{
    match op {
        Operator::Eq => Ok(Value::Bool(store.ids.equal(a, b))),
        Operator::Ne => Ok(Value::Bool(!store.ids.equal(a, b))),
        Operator::Member => member(alloc, store, a, b),
        Operator::Plus => plus(alloc, store, a, b),
        Operator::Less => less(alloc, store, a, b),
        Operator::Times => times(alloc, store, a, b),
        Operator::Mod => on_integers(Operator::Mod, a, b),
        Operator::Lt => on_integers(Operator::Lt, a, b),
        Operator::Le => on_integers(Operator::Le, a, b),
        Operator::Gt => on_integers(Operator::Gt, a, b),
        Operator::Ge => on_integers(Operator::Ge, a, b),
    }
}
