//! A search through the graph of the places of an element.

ghost use Rattle.std.specs.Prelude.{◌≡◌, ◌≢◌, ◌+◌, ◌<◌, ◌↔◌, ◌⊎◌, ℕ, [], ◌∷◌, length, Contains, IsTrue, OnOk};
ghost use Rattle.sg_defs.specs.Membership.{IsFactorization};
ghost use Rattle.sg_laws_families.specs.PlaceGraph.{IsVertex};
ghost use Rattle.sg_betti.specs.Links.{IsLink, IsParted};

use sg_apery::Table;
use std::alloc::{AllocError, Global};
use std::mem;

/// Whether a number without the generator at a place is a member.
pub(crate) fn is_vertex(t: &Table, n: u64, place: u64) -> bool
    requires { place < length t.now }
    ensures { IsTrue result ↔ IsVertex (IsFactorization t.now n) place }
{
    let generators = t.generators().as_slice();
    let generator = generators[place as usize];
    generator <= n && t.contains_natural(n - generator)
}

/// The same of a place other than the root.
fn is_other_vertex(t: &Table, n: u64, root: u64, place: u64) -> bool
    requires { place < length t.now }
    ensures { IsTrue result ↔ (IsVertex (IsFactorization t.now n) place × (place ≢ root)) }
{
    place != root && is_vertex(t, n, place)
}

/// Whether a number without the generators at two places is a member.
fn is_link(t: &Table, n: u64, first: u64, second: u64) -> bool
    requires first { first < length t.now }
    requires second { second < length t.now }
    ensures { IsTrue result ↔ IsLink t.now n first second }
{
    let generators = t.generators().as_slice();
    let both = generators[first as usize] + generators[second as usize];
    both <= n && t.contains_natural(n - both)
}

/// Parts the places that are left by whether they are linked with one.
fn part(
    t: &Table,
    n: u64,
    place: u64,
    left: &[u64],
    near: &mut Vec<u64>,
    far: &mut Vec<u64>,
) -> Result<(), AllocError>
    requires place { place < length t.now }
    requires left { (k : ℕ) → Contains left.now k → k < length t.now }
    ensures near { OnOk result ((k : ℕ) →
        Contains near.new.items k ↔ (Contains near.old.items k ⊎ (Contains left.now k × IsLink t.now n place k))) }
    ensures far { OnOk result ((k : ℕ) →
        Contains far.new.items k ↔ (Contains far.old.items k ⊎ (Contains left.now k × ¬ IsLink t.now n place k))) }
    ensures count { OnOk result
        (length near.new.items + length far.new.items ≡ length near.old.items + length far.old.items + length left.now) }
{
    for other in left {
        if is_link(t, n, place, *other) {
            near.push(*other)?;
        } else {
            far.push(*other)?;
        }
    }
    Ok(())
}

/// The places of an element, parted by whether a path leads to them from one of them. The lists are used again from one
/// element to the next.
#[derive(Drop)]
pub(crate) struct Search {
    /// The places that were reached, and whose links are followed.
    pub(crate) reached: Vec<u64>,
    /// The places that were reached.
    waiting: Vec<u64>,
    /// The places that were not reached.
    left: Vec<u64>,
    /// What becomes of these in a step.
    far: Vec<u64>,
}

impl Search {
    /// An empty search. It takes no memory.
    pub(crate) fn new(alloc: Global) -> Search {
        Search {
            reached: Vec::new(alloc),
            waiting: Vec::new(alloc),
            left: Vec::new(alloc),
            far: Vec::new(alloc),
        }
    }

    /// Whether each place was reached. It takes no memory.
    pub(crate) fn reached_all(&self) -> bool
        ensures { IsTrue result ↔ (self.now.left.items ≡ []) }
    {
        self.left.is_empty()
    }

    /// Takes up an element, with one place of it to begin with.
    fn begin(&mut self, t: &Table, n: u64, root: u64) -> Result<(), AllocError>
        ensures reached { OnOk result (self.new.reached.items ≡ []) }
        ensures waiting { OnOk result (self.new.waiting.items ≡ root ∷ []) }
        ensures left { OnOk result ((k : ℕ) →
            Contains self.new.left.items k ↔ (IsVertex (IsFactorization t.now n) k × (k ≢ root))) }
    {
        self.reached.clear();
        self.waiting.clear();
        self.waiting.push(root)?;
        self.left.clear();
        let places = t.generators().len() as u64;
        for place in 0..places {
            if is_other_vertex(t, n, root, place) {
                self.left.push(place)?;
            }
        }
        Ok(())
    }

    /// Parts the places of `n` by whether a path leads to them from the root.
    pub(crate) fn run(&mut self, t: &Table, n: u64, root: u64) -> Result<(), AllocError>
        requires { IsVertex (IsFactorization t.now n) root }
        ensures { OnOk result (IsParted t.now n root self.new.reached.items self.new.left.items) }
    {
        self.begin(t, n, root)?;
        while let Some(place) = self.waiting.pop() {
            self.reached.push(place)?;
            self.far.clear();
            part(t, n, place, &self.left, &mut self.waiting, &mut self.far)?;
            mem::swap(&mut self.left, &mut self.far);
        }
        Ok(())
    }
}
