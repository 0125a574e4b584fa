//! The Apery list modulo another member, from a given one.
//!
//! Of the numbers of a class, `i`, `i + n`, `i + 2n` and so on, none is a member before the first, and each is one from
//! there on. So the first is found by steps that double from where the class before had its own, and then by halves.
//! Neighbours are mostly near, and no generator is looked at.

ghost use Rattle.std.specs.Prelude.{◌≡◌, ◌+◌, ◌*◌, ◌^◌, ◌<◌, ◌≤◌, ◌↔◌, length, slice_index, EachIndex, IfOk, IsTrue, vec_len};
ghost use Rattle.sg_classes.specs.Classes.{IsAboveEntry};
ghost use Rattle.sg_tables.specs.Modulus.{Adds, AreFirst, IsFirst, IsMet, IsRange};

use sg_classes::{APERY_ENTRY_LIMIT, MULTIPLICITY_LIMIT, greatest, is_above_entry};
use std::alloc::{AllocError, Global};

/// Numbers of steps between which the first member of a class is met.
#[derive(Clone, Copy)]
struct Range {
    low: u64,
    high: u64,
}

/// Whether a class has a member after so many steps.
fn is_met(apery: &[u64], modulus: u64, class: u64, steps: u64) -> bool
    requires not_empty { 0 < length apery.now }
    requires fits { class + steps * modulus < 2 ^ 64 }
    ensures { IsTrue result ↔ IsMet apery.now modulus class steps }
{
    is_above_entry(apery, class + steps * modulus)
}

/// From where no member is met yet, up by steps that double, at most to the top.
fn rise(apery: &[u64], modulus: u64, class: u64, from: u64, top: u64) -> Range
    requires not_empty { 0 < length apery.now }
    requires adds { Adds apery.now modulus }
    requires fits { class + top * modulus < 2 ^ 64 }
    requires room { top < 2 ^ 63 }
    requires top { IsMet apery.now modulus class top }
    requires before { from < top }
    requires from { IsMet apery.now modulus class from → ⊥ }
    ensures { IsRange apery.now modulus class top result }
{
    let mut low = from + 1;
    let mut step = 1;
    while step <= top - low && !is_met(apery, modulus, class, low + step - 1) {
        low += step;
        step *= 2;
    }
    let high = if step <= top - low {
        low + step - 1
    } else {
        top
    };
    Range { low, high }
}

/// From where a member is met, down by steps that double.
fn fall(apery: &[u64], modulus: u64, class: u64, from: u64, top: u64) -> Range
    requires not_empty { 0 < length apery.now }
    requires adds { Adds apery.now modulus }
    requires fits { class + top * modulus < 2 ^ 64 }
    requires room { top < 2 ^ 63 }
    requires below { from ≤ top }
    requires from { IsMet apery.now modulus class from }
    ensures { IsRange apery.now modulus class top result }
{
    let mut high = from;
    let mut step = 1;
    while step <= high && is_met(apery, modulus, class, high - step) {
        high -= step;
        step *= 2;
    }
    let low = if step <= high { high - step + 1 } else { 0 };
    Range { low, high }
}

/// The first member of a class within a range of steps, by halves.
fn halve(apery: &[u64], modulus: u64, class: u64, range: &Range, top: u64) -> u64
    requires not_empty { 0 < length apery.now }
    requires adds { Adds apery.now modulus }
    requires fits { class + top * modulus < 2 ^ 64 }
    requires range { IsRange apery.now modulus class top range.now }
    ensures { IsFirst apery.now modulus class top result }
{
    let mut low = range.low;
    let mut high = range.high;
    while low < high {
        let middle = low + (high - low) / 2;
        if is_met(apery, modulus, class, middle) {
            high = middle;
        } else {
            low = middle + 1;
        }
    }
    high
}

/// After how many steps a class has its first member, looked for from `near` on, which is at most `top`.
fn first_steps(apery: &[u64], modulus: u64, class: u64, near: u64, top: u64) -> u64
    requires not_empty { 0 < length apery.now }
    requires adds { Adds apery.now modulus }
    requires fits { class + top * modulus < 2 ^ 64 }
    requires room { top < 2 ^ 63 }
    requires top { IsMet apery.now modulus class top }
    requires near { near ≤ top }
    ensures { IsFirst apery.now modulus class top result }
{
    let range = if is_met(apery, modulus, class, near) {
        fall(apery, modulus, class, near, top)
    } else {
        rise(apery, modulus, class, near, top)
    };
    halve(apery, modulus, class, &range, top)
}

/// The least number of each class modulo `modulus` that is at least the entry of its class in `apery`, for numbers to
/// which the modulus may be added.
pub fn list_modulo(alloc: Global, apery: &[u64], modulus: u64) -> Result<Vec<u64>, AllocError>
    requires not_empty { 0 < length apery.now }
    requires adds { Adds apery.now modulus }
    requires small { EachIndex apery.now (λ i. slice_index apery.now i ≤ APERY_ENTRY_LIMIT) }
    requires positive { 0 < modulus }
    requires short { modulus ≤ MULTIPLICITY_LIMIT }
    ensures { IfOk result (λ list. AreFirst apery.now modulus list.items modulus) }
{
    let top = greatest(apery) / modulus + 1;
    let mut near = 0;
    let mut list = Vec::new(alloc);
    for class in 0..modulus {
        near = first_steps(apery, modulus, class, near, top);
        list.push(class + near * modulus)?;
    }
    Ok(list)
}
