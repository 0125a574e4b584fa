//! Which numbers are looked at, and which of their factorizations.

ghost use Rattle.std.specs.Prelude.{◌≡◌, ◌<◌, ◌↔◌, length, IsTrue};
ghost use Rattle.sg_omega.specs.Lengths.{IsLowered};
ghost use Rattle.sg_tame.specs.Needed.{IsInSomeAperySet, IsNeeded, IsNeededAt, IsUsedMinimally};

use sg_apery::Table;

/// Whether a number is a member once the generator is taken away.
pub fn is_lowered(t: &Table, v: u64, generator: u64) -> bool
    ensures { IsTrue result ↔ IsLowered t.now v generator }
{
    if v < generator {
        return false;
    }
    t.contains_natural(v - generator)
}

/// Whether a member lies in the Apery set of some generator.
fn is_in_some_apery_set(t: &Table, member: u64) -> bool
    ensures { IsTrue result ↔ IsInSomeAperySet t.now member }
{
    let generators = t.generators().as_slice();
    for place in 0..generators.len() {
        if !is_lowered(t, member, generators[place]) {
            return true;
        }
    }
    false
}

/// Whether a number is the sum of this generator and of an element of an Apery set.
fn is_needed_at(t: &Table, v: u64, generator: u64) -> bool
    ensures { IsTrue result ↔ IsNeededAt t.now v generator }
{
    if !is_lowered(t, v, generator) {
        return false;
    }
    is_in_some_apery_set(t, v - generator)
}

/// Whether a number is the sum of some generator and of an element of an Apery set.
pub fn is_needed(t: &Table, v: u64) -> bool
    ensures { IsTrue result ↔ IsNeeded t.now v }
{
    let generators = t.generators().as_slice();
    for place in 0..generators.len() {
        if is_needed_at(t, v, generators[place]) {
            return true;
        }
    }
    false
}

/// Whether the generator is used, and can be taken away from the member.
fn is_spare(t: &Table, member: u64, times: u64, generator: u64) -> bool
    ensures { IsTrue result ↔ ((0 < times) × IsLowered t.now member generator) }
{
    if times == 0 {
        return false;
    }
    is_lowered(t, member, generator)
}

/// Whether the vector uses only generators in whose Apery sets the member lies.
pub fn is_used_minimally(t: &Table, member: u64, vector: &[u64]) -> bool
    requires { length vector.now ≡ length t.now }
    ensures { IsTrue result ↔ IsUsedMinimally t.now member vector.now }
{
    let generators = t.generators().as_slice();
    for place in 0..vector.len() {
        if is_spare(t, member, vector[place], generators[place]) {
            return false;
        }
    }
    true
}
