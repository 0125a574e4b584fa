//! Apery lists modulo any member, intersections and quotients.

ghost use Rattle.std.specs.Prelude.{◌≡◌, ◌*◌, ◌%◌, ◌<◌, ◌≤◌, ◌↔◌, ℕ, length, slice_index, EachIndex, IfOk, OnOk, IfErr, IfSome, IsNone};
ghost use Rattle.sg_defs.specs.Apery.{IsApery};
ghost use Rattle.sg_defs.specs.Membership.{IsMember, Generates};
ghost use Rattle.sg_classes.specs.Classes.{IsAboveEntry, IsClassList, IsKunz};
ghost use Rattle.sg_apery.specs.Common.{AreGreaterEntries, IsCommonEntry};
ghost use Rattle.sg_apery.specs.Conditions.{IsInBoth, IsInQuotient, IsQuotientRefused};
ghost use Rattle.sg_apery.specs.Fit.{IsSizeFault};

use crate::fault::TableFault;
use crate::kunz::from_kunz;
use crate::table::Table;
use sg_classes::{APERY_ENTRY_LIMIT, APERY_MODULUS_LIMIT, MULTIPLICITY_LIMIT, is_above_entry};
use sg_nat::Nats;
use std::alloc::{AllocError, Global};

impl Table {
    /// The Apery list modulo a member: entry `i` is the least member congruent to `i` (Rosales and Garcia-Sanchez,
    /// Numerical Semigroups, 2009, Lemma 2.4).
    pub fn apery_at(&self, alloc: Global, n: u64) -> Result<Nats, AllocError>
        requires positive { 0 < n }
        requires small { n ≤ APERY_MODULUS_LIMIT }
        requires member { IsMember self.now n }
        ensures apery { IfOk result (λ list. IsApery self.now n list) }
        ensures small { IfOk result (λ list. EachIndex list (λ i. slice_index list i ≤ APERY_ENTRY_LIMIT)) }
    {
        let list = self.list_modulo(alloc, n)?;
        Nats::from_slice(alloc, &list)
    }
}

/// The least number above 0 and within the limit on multiplicities that is above its entry in both lists.
fn common_member(first: &[u64], second: &[u64]) -> Option<u64>
    requires first { 0 < length first.now }
    requires second { 0 < length second.now }
    ensures found { IfSome result (IsCommonEntry first.now second.now) }
    ensures none { IsNone result → (n : ℕ) → IsCommonEntry first.now second.now n → ⊥ }
{
    for n in 1..MULTIPLICITY_LIMIT + 1 {
        if is_above_entry(first, n) && is_above_entry(second, n) {
            return Some(n);
        }
    }
    None
}

/// The greater entry in each class.
fn greater_entries(alloc: Global, first: &[u64], second: &[u64]) -> Result<Vec<u64>, AllocError>
    requires { length first.now ≡ length second.now }
    ensures { IfOk result (λ list. AreGreaterEntries first.now second.now list.items) }
{
    let mut list = Vec::new(alloc);
    for class in 0..first.len() {
        list.push(first[class].max(second[class]))?;
    }
    Ok(list)
}

/// The least number of each residue class modulo a member of both that is a member of both: the greater of the two
/// least members.
fn common_list(alloc: Global, a: &Table, b: &Table, modulus: u64) -> Result<Vec<u64>, AllocError>
    requires positive { 0 < modulus }
    requires small { modulus ≤ MULTIPLICITY_LIMIT }
    requires first { IsMember a.now modulus }
    requires second { IsMember b.now modulus }
    ensures kunz { IfOk result (λ list. IsKunz list.items) }
    ensures same { IfOk result (λ list. (n : ℕ) → IsInBoth a.now b.now n ↔ IsAboveEntry list.items n) }
{
    let first = a.list_modulo(alloc, modulus)?;
    let second = b.list_modulo(alloc, modulus)?;
    greater_entries(alloc, &first, &second)
}

/// The numbers that are members of both, which are a numerical semigroup.
///
/// TooLarge where it is past the limits, and no other fault.
pub fn intersect(alloc: Global, a: &Table, b: &Table) -> Result<Table, TableFault>
    ensures generated { IfOk result (λ table. Generates (IsInBoth a.now b.now) table) }
    ensures refused { IfErr result (IsSizeFault (IsInBoth a.now b.now)) }
{
    let Some(modulus) = common_member(a.apery(), b.apery()) else {
        return Err(TableFault::TooLarge);
    };
    let list = common_list(alloc, a, b, modulus)?;
    from_kunz(alloc, &list)
}

/// The least number of a residue class whose product with `d` is at least the entry of its class.
fn quotient_entry(apery: &[u64], d: u64, class: usize) -> u64
    requires class { class < length apery.now }
    requires short { length apery.now ≤ MULTIPLICITY_LIMIT }
    requires small { EachIndex apery.now (λ i. slice_index apery.now i ≤ APERY_ENTRY_LIMIT) }
    requires positive { 0 < d }
    ensures residue { result % length apery.now ≡ class }
    ensures above { (x : ℕ) → x % length apery.now ≡ class → (result ≤ x) ↔ IsAboveEntry apery.now (d * x) }
{
    let modulus = apery.len() as u64;
    let class = class as u64;
    let place = d % modulus * class % modulus;
    let least = apery[place as usize].div_ceil(d);
    if least <= class {
        return class;
    }
    class + (least - class).div_ceil(modulus) * modulus
}

/// The least number of each residue class whose product with `d` is at least the entry of its class.
fn quotient_list(alloc: Global, apery: &[u64], d: u64) -> Result<Vec<u64>, AllocError>
    requires not_empty { 0 < length apery.now }
    requires zero { slice_index apery.now 0 ≡ 0 }
    requires short { length apery.now ≤ MULTIPLICITY_LIMIT }
    requires small { EachIndex apery.now (λ i. slice_index apery.now i ≤ APERY_ENTRY_LIMIT) }
    requires positive { 0 < d }
    ensures classes { IfOk result (λ list. IsClassList list.items) }
    ensures same { IfOk result (λ list. (n : ℕ) → IsAboveEntry apery.now (d * n) ↔ IsAboveEntry list.items n) }
{
    let mut list = Vec::new(alloc);
    for class in 0..apery.len() {
        list.push(quotient_entry(apery, d, class))?;
    }
    Ok(list)
}

/// The numbers whose product with `d` is a member, which are a numerical semigroup (Rosales and Garcia-Sanchez,
/// Numerical Semigroups, 2009).
///
/// BadArgument where `d` is 0; then TooLarge where the semigroup is past the limits.
pub fn quotient(alloc: Global, a: &Table, d: u64) -> Result<Table, TableFault>
    ensures generated { IfOk result (λ table. Generates (IsInQuotient a.now d) table) }
    ensures accepted { OnOk result (0 < d) }
    ensures refused { IfErr result (IsQuotientRefused a.now d) }
{
    if d == 0 {
        return Err(TableFault::BadArgument);
    }
    let list = quotient_list(alloc, a.apery(), d)?;
    from_kunz(alloc, &list)
}
