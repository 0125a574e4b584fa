//! Names with their values.

ghost use Rattle.std.specs.Prelude.{◌≡◌, ℕ, List, Some, None, MatchOption, slice_get, ⊤};
ghost use Rattle.sg_value.specs.Known.{Known, named};
ghost use Rattle.std.specs.Map.{lookup};
ghost use Rattle.std.specs.Str.{bytes_eq};
ghost use Rattle.sg_value.specs.Plain.{AllKnown, plain};
ghost use Rattle.sg_eval.specs.State.{vars_of, AreKnown};

use sg_nat::Bytes;
use sg_value::Value;

/// A name and its value.
#[derive(Drop)]
pub struct Variable {
    pub name: Bytes,
    pub value: Value,
}

/// The value of the first entry of this name.
pub fn find<'a>(entries: &'a [Variable], name: &[u8]) -> Option<&'a Value>
    ensures found { (names : Known) → MatchOption result (lookup (bytes_eq name.now) (vars_of names entries.now) ≡ None) (λ v. lookup (bytes_eq name.now) (vars_of names entries.now) ≡ Some (plain (named names) v.now)) }
    ensures known { (names : Known) → AreKnown names entries.now → MatchOption result ⊤ (λ v. AllKnown (named names) v.now) }
{
    for entry in entries {
        if name == entry.name.as_slice() {
            return Some(&entry.value);
        }
    }
    None
}
