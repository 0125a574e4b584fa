//! The greatest factorization of an element.

ghost use Rattle.std.specs.Prelude.{◌≡◌, ◌-◌, ◌*◌, ◌<◌, ◌≤◌, ◌^◌, ◌↔◌, IsTrue, IfOk, MatchOption};
ghost use Rattle.sg_defs.specs.Membership.{IsFactorization, IsIntegerMember, IsMember};
ghost use Rattle.sg_nonunique.specs.Factorizations.{IsIntegerFactorization};
ghost use Rattle.sg_nonunique.specs.Presentations.{IsLexGreatest};
ghost use Rattle.sg_factor.specs.Greedy.{IsStuck};

use sg_apery::Table;
use sg_nat::Nats;
use std::alloc::{AllocError, Global};

/// Whether a natural is a member.
fn is_member(t: &Table, n: u64) -> bool
    requires { n < 2 ^ 63 }
    ensures { IsTrue result ↔ IsMember t.now n }
{
    t.contains(n as i64)
}

/// How often a generator can be taken from a member while a member is left.
fn times_within(t: &Table, n: u64, generator: u64) -> u64
    requires small { n < 2 ^ 63 }
    requires positive { 0 < generator }
    requires member { IsMember t.now n }
    ensures fits { result * generator ≤ n }
    ensures member { IsMember t.now (n - result * generator) }
    ensures stuck { IsStuck t.now (n - result * generator) generator }
{
    let mut times = 0;
    let mut rest = n;
    while rest >= generator && is_member(t, rest - generator) {
        rest -= generator;
        times += 1;
    }
    times
}

/// The same of a natural that is a member.
fn greatest_of(alloc: Global, t: &Table, n: u64) -> Result<Nats, AllocError>
    requires small { n < 2 ^ 63 }
    requires member { IsMember t.now n }
    ensures { IfOk result (IsLexGreatest (IsFactorization t.now n)) }
{
    let given = t.generators().as_slice();
    let apery = t.apery();
    let mut rest = apery[(n % apery.len() as u64) as usize];
    let mut vector = Nats::new(alloc);
    vector.push((n - rest) / given[0])?;
    for generator in &given[1..] {
        let times = times_within(t, rest, *generator);
        rest -= times * *generator;
        vector.push(times)?;
    }
    Ok(vector)
}

/// The lexicographically greatest factorization of an integer, and none where it is no element. Each generator in turn
/// is taken as often as an element is left; so it takes one step for the first generator, and for the others together
/// fewer steps than the first generator says.
pub fn greatest_factorization(alloc: Global, t: &Table, n: i64) -> Result<Option<Nats>, AllocError>
    ensures { IfOk result (λ found. MatchOption found (¬ IsIntegerMember t.now n) (IsLexGreatest (IsIntegerFactorization t.now n))) }
{
    if !t.contains(n) {
        return Ok(None);
    }
    Ok(Some(greatest_of(alloc, t, n as u64)?))
}
