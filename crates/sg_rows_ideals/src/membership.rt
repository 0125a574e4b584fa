//! Membership of an ideal.

ghost use Rattle.std.specs.Prelude.{◌↔◌, ◌-ℤ◌, IsTrue};
ghost use Rattle.sg_defs.specs.Ideals.{IsIdealMember};
ghost use Rattle.sg_defs.specs.Membership.{IsIntegerMember};

use sg_apery::Table;

/// Whether an integer is the sum of a generator and a member. Their distance may be past 64 bits with a sign, and so is
/// looked up without one.
fn is_above(table: &Table, generator: i64, x: i64) -> bool
    ensures { IsTrue result ↔ IsIntegerMember table.now (x -ℤ generator) }
{
    if x < generator {
        return false;
    }
    let distance = x.abs_diff(generator);
    let entries = table.apery();
    entries[(distance % entries.len() as u64) as usize] <= distance
}

/// Whether an integer is a member of the ideal with these generators over the semigroup of the table: whether it is the
/// sum of one of them and a member.
pub fn is_member(x: i64, table: &Table, generators: &[i64]) -> bool
    ensures { IsTrue result ↔ IsIdealMember table.now generators.now x }
{
    for generator in generators {
        if is_above(table, *generator, x) {
            return true;
        }
    }
    false
}
