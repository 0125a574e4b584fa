//! The machine that a script runs on.

ghost use Rattle.sg_eval.specs.State.{AreKnown, AreKnownIn};
ghost use Rattle.sg_value.specs.Data.{semigroups};
ghost use Rattle.sg_value.specs.Known.{named};
ghost use Rattle.sg_eval.specs.KnownFacts.{are_known-prop};

use crate::variable::{Variable, find};
use crate::variables::{Variables, find_in, grow, set, set_integer, value_of};
use indexmap::IndexMap;
use sg_calls::{CallFault, Command, Operator, combine, perform};
use sg_nat::Bytes;
use sg_rows::integer_of;
use sg_store::{Counts, Store};
use sg_value::{Value, print_into, try_clone};
use std::alloc::{AllocError, Global};

/// The semigroups and ideals that are known, with what is kept of them, the variables with their values, the parameters of
/// the arrows around, and the budget of steps of each call.
#[derive(Drop)]
pub struct Machine {
    store: Store,
    variables: Variables,
    /// The nearest arrow's first; there are at most as many as expressions may nest.
    parameters: Vec<Variable>,
    budget: u64,
    ghost known: { AreKnownIn store.ids variables.entries × AreKnown store.ids parameters.items } by { are_known-prop store.ids variables.entries parameters.items },
}

impl Machine {
    ghost use Rattle.std.specs.Prelude.{◌≡◌, ◌∷◌, ◌++◌, ℕ, List, [], true, length, slice_get, IfOk, IfSome, OnOk, OnErr};
    ghost use Rattle.std.specs.Map.{lookup};
    ghost use Rattle.std.specs.Str.{bytes_eq};
    ghost use Rattle.sg_value.specs.Plain.{AllKnown, AllKnownIn, plain, plain_of_all};
    ghost use Rattle.sg_store.specs.Attributes.{AreCounts};
    ghost use Rattle.sg_calls.specs.Commands.{takes};
    ghost use Rattle.sg_rows.specs.Order.{Plain};
    ghost use Rattle.sg_meaning.specs.Vars.{Vars, with_value};
    ghost use Rattle.sg_meaning.specs.Statements.{texts_of};
    ghost use Rattle.sg_meaning.specs.Queries.{calls, combines};
    ghost use Rattle.sg_meaning.specs.Expressions.{looked_up, ask};
    ghost use Rattle.sg_eval.specs.Outcomes.{Evaluates, Finds};
    ghost use Rattle.sg_eval.specs.Growth.{Grows, joined_onto};
    ghost use Rattle.sg_eval.specs.State.{SameStore};
    ghost use Rattle.sg_eval.specs.Machine.{state_of};
    ghost use Rattle.sg_eval.specs.AtOnce.{GivesInteger};
    ghost use Rattle.sg_value.specs.Data.{int};

    /// A machine over what this store knows and keeps, in which no variable has a value, with this budget of steps for
    /// each call.
    pub fn new(alloc: Global, store: Store, budget: u64) -> Machine
        ensures names { (state_of result).names ≡ store.ids }
        ensures attributes { (state_of result).attributes ≡ store.attributes }
        ensures variables { (state_of result).variables ≡ [] }
        ensures budget { (state_of result).budget ≡ budget }
    {
        Machine {
            store,
            variables: IndexMap::new(alloc),
            parameters: Vec::new(alloc),
            budget,
        }
    }

    /// How often each attribute of semigroups was asked for and made.
    pub fn counts(&self) -> Counts
        ensures { AreCounts (state_of self.now).attributes result }
    {
        self.store.attributes.counts()
    }

    /// The value of a parameter, or else of a variable.
    #[inline(always)]
    pub fn named(&self, alloc: Global, name: &[u8]) -> Result<Value, CallFault>
        ensures { Evaluates plain AllKnown result (state_of self.now) (state_of self.now) (λ names. looked_up (lookup (bytes_eq name.now) (state_of self.now).parameters) name.now) }
    {
        let value = find_in(&self.parameters, &self.variables, name)?;
        Ok(try_clone(value, alloc)?)
    }

    /// The integer of a parameter, or else of a variable, where its value is one.
    #[inline(always)]
    pub fn integer_named(&self, name: &[u8]) -> Option<i64>
        ensures { IfSome result (GivesInteger (state_of self.now) (λ names. looked_up (lookup (bytes_eq name.now) (state_of self.now).parameters) name.now)) }
    {
        if let Some(value) = find(&self.parameters, name) {
            return integer_of(value);
        }
        integer_of(value_of(&self.variables, name)?)
    }

    /// Whether a parameter or a variable of this name has a value.
    pub fn check_named(&self, name: &[u8]) -> Result<(), CallFault>
        ensures { Finds result (state_of self.now) (λ names. looked_up (lookup (bytes_eq name.now) (state_of self.now).parameters) name.now) }
    {
        find_in(&self.parameters, &self.variables, name)?;
        Ok(())
    }

    /// What a command of values answers.
    pub fn call(
        &mut self,
        alloc: Global,
        command: Command,
        args: &[Value],
    ) -> Result<Value, CallFault>
        requires count { takes command (length args.now) ≡ true }
        requires known { AllKnownIn (named (state_of self.old).names) args.now }
        ensures { Evaluates plain AllKnown result (state_of self.old) (state_of self.new) (λ names. ask (calls command (plain_of_all names args.now))) }
    {
        perform(alloc, &mut self.store, command, args, self.budget)
    }

    /// What an operator gives.
    pub fn combine(
        &mut self,
        alloc: Global,
        op: Operator,
        a: &Value,
        b: &Value,
    ) -> Result<Value, CallFault>
        requires left { AllKnown (named (state_of self.old).names) a.now }
        requires right { AllKnown (named (state_of self.old).names) b.now }
        ensures { Evaluates plain AllKnown result (state_of self.old) (state_of self.new) (λ names. ask (combines op (plain names a.now) (plain names b.now))) }
    {
        combine(alloc, &mut self.store, op, a, b, self.budget)
    }

    /// A parameter comes in, nearest of all.
    pub fn bind(&mut self, name: &Bytes, value: Value) -> Result<(), AllocError>
        requires known { AllKnown (named (state_of self.old).names) value }
        ensures store { SameStore (state_of self.old) (state_of self.new) }
        ensures variables { (state_of self.new).variables ≡ (state_of self.old).variables }
        ensures ok { OnOk result ((state_of self.new).parameters ≡ (name.now, plain (named (state_of self.old).names) value) ∷ (state_of self.old).parameters) }
    {
        let name = name.try_clone()?;
        self.parameters.insert(0, Variable { name, value })?;
        Ok(())
    }

    /// The nearest parameter goes.
    pub fn unbind(&mut self)
        requires { (p : List ℕ × Plain) × (ps : Vars) × ((state_of self.old).parameters ≡ p ∷ ps) }
        ensures store { SameStore (state_of self.old) (state_of self.new) }
        ensures variables { (state_of self.new).variables ≡ (state_of self.old).variables }
        ensures parameters { (p : List ℕ × Plain) (ps : Vars) → (state_of self.old).parameters ≡ p ∷ ps → (state_of self.new).parameters ≡ ps }
    {
        self.parameters.remove(0);
    }

    /// All parameters go.
    pub fn clear(&mut self)
        ensures store { SameStore (state_of self.old) (state_of self.new) }
        ensures variables { (state_of self.new).variables ≡ (state_of self.old).variables }
        ensures parameters { (state_of self.new).parameters ≡ [] }
    {
        self.parameters.clear();
    }

    /// A variable gets a value.
    #[inline(always)]
    pub fn set(&mut self, alloc: Global, name: &Bytes, value: Value) -> Result<(), AllocError>
        requires known { AllKnown (named (state_of self.old).names) value }
        ensures store { SameStore (state_of self.old) (state_of self.new) }
        ensures ok { OnOk result ((state_of self.new).variables ≡ with_value name.now (plain (named (state_of self.old).names) value) (state_of self.old).variables) }
        ensures err { OnErr result ((state_of self.new).variables ≡ (state_of self.old).variables) }
        ensures parameters { (state_of self.new).parameters ≡ (state_of self.old).parameters }
    {
        set(alloc, &mut self.variables, name.as_slice(), value)
    }

    /// A variable gets an integer.
    #[inline(always)]
    pub fn set_integer(&mut self, alloc: Global, name: &Bytes, z: i64) -> Result<(), AllocError>
        ensures store { SameStore (state_of self.old) (state_of self.new) }
        ensures ok { OnOk result ((state_of self.new).variables ≡ with_value name.now (int z) (state_of self.old).variables) }
        ensures err { OnErr result ((state_of self.new).variables ≡ (state_of self.old).variables) }
        ensures parameters { (state_of self.new).parameters ≡ (state_of self.old).parameters }
    {
        set_integer(alloc, &mut self.variables, name.as_slice(), z)
    }

    /// The entries of lists come behind those of a variable's list, in its place.
    pub fn grow(&mut self, alloc: Global, name: &[u8], lists: &[Value]) -> Result<(), CallFault>
        requires parameters { (state_of self.old).parameters ≡ [] }
        requires known { AllKnownIn (named (state_of self.old).names) lists.now }
        ensures store { SameStore (state_of self.old) (state_of self.new) }
        ensures parameters { (state_of self.new).parameters ≡ (state_of self.old).parameters }
        ensures grows { Grows result (state_of self.old) (state_of self.new).variables name.now (λ names. joined_onto name.now (plain_of_all names lists.now)) }
    {
        grow(alloc, &mut self.variables, name, lists)
    }

    /// The texts of the values, one after the other.
    pub fn texts(&self, alloc: Global, values: &[Value]) -> Result<Bytes, AllocError>
        requires known { AllKnownIn (named (state_of self.now).names) values.now }
        ensures { IfOk result (λ text. text ≡ texts_of (plain_of_all (named (state_of self.now).names) values.now)) }
    {
        let mut text = Bytes::new(alloc);
        for value in values {
            print_into(value, &self.store.ids, &mut text)?;
        }
        Ok(text)
    }
}
