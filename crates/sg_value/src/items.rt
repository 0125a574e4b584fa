//! The entries of a list, which all who hold it share. Contracts see them as plain data.

ghost use Rattle.std.specs.Prelude.{◌≡◌, ◌-◌, ◌^◌, min, IfOk, OnOk, OnErr, length};
ghost use Rattle.sg_value.specs.Data.{join, weight_of_all, depth_of_all};
ghost use Rattle.sg_value.specs.Plain.{contents_of_all};
ghost use Rattle.sg_value.specs.Size.{IsMeasured};

use crate::copy::copy_of_all;
use crate::size::{greatest_depth, total_weight};
use crate::value::Value;
use std::alloc::{AllocError, Global};
use std::marker::Model;
use std::rc::Rc;

/// The entries of a list, shared by all who hold it.
#[cycle(value)]
#[derive(Drop)]
pub struct Items {
    node: Rc<Node>,
}

/// Entries with their weight and depth.
#[cycle(value)]
#[derive(Drop)]
struct Node {
    entries: Vec<Value>,
    weight: u64,
    depth: u64,
}

impl Model for Items {
    ghost use Rattle.sg_value.specs.Places.{Entries, entries_code};

    ghost Value = { Entries };

    ghost coded = { entries_code };

    ghost use Rattle.sg_value.specs.Data.{depth_of_all};
    ghost use Rattle.sg_value.specs.Contents.{contents_of_all};
    ghost use Rattle.sg_value.specs.Size.{IsMeasured};

    ghost view = { λ a. contents_of_all a.node.value.entries.items };

    ghost invariant = { λ a. IsMeasured a.node.value };

    ghost size = { λ ds. depth_of_all ds };

    ghost use Rattle.sg_value.specs.Falls.{depths_fall};

    ghost size_decreases = { λ a h. depths_fall a.node.value.entries.items };
}

impl Items {
    /// The entries, to be read.
    pub fn as_slice(&self) -> &[Value]
        ensures { contents_of_all result.now ≡ self.now }
    {
        &self.node.entries
    }

    /// The sum of the weights of the entries, 2^64 - 1 where it is more.
    pub fn weight(&self) -> u64
        ensures { result ≡ min (weight_of_all self.now) (2 ^ 64 - 1) }
    {
        self.node.weight
    }

    /// The greatest depth of the entries, 2^64 - 1 where it is more.
    pub fn depth(&self) -> u64
        ensures { result ≡ min (depth_of_all self.now) (2 ^ 64 - 1) }
    {
        self.node.depth
    }

    /// The same entries, in one step.
    pub fn try_clone(&self) -> Result<Items, AllocError>
        ensures { IfOk result (λ copy. copy ≡ self.now) }
    {
        Ok(Items {
            node: self.node.clone()?,
        })
    }

    /// These entries, with their weight and depth.
    pub fn from_vec(alloc: Global, entries: Vec<Value>) -> Result<Items, AllocError>
        ensures { IfOk result (λ items. items ≡ contents_of_all entries.items) }
    {
        let (weight, depth) = (total_weight(&entries), greatest_depth(&entries));
        let node = Node {
            entries,
            weight,
            depth,
        };
        Ok(Items {
            node: Rc::new(alloc, node)?,
        })
    }

    /// More entries, behind the others. Where somebody else holds the list, this one gets entries of its own first.
    pub fn append(&mut self, alloc: Global, more: Vec<Value>) -> Result<(), AllocError>
        ensures ok { OnOk result (self.new ≡ join self.old (contents_of_all more.items)) }
        ensures err { OnErr result (self.new ≡ self.old) }
    {
        if let Some(node) = Rc::get_mut(&mut self.node) {
            return add(node, more);
        }
        let mut node = own(&self.node, alloc)?;
        add(&mut node, more)?;
        self.node = Rc::new(alloc, node)?;
        Ok(())
    }
}

/// The same entries, held by nobody else.
fn own(node: &Node, alloc: Global) -> Result<Node, AllocError>
    requires measured { IsMeasured node.now }
    ensures measured { IfOk result IsMeasured }
    ensures same { IfOk result (λ copy. contents_of_all copy.entries.items ≡ contents_of_all node.now.entries.items) }
{
    Ok(Node {
        entries: copy_of_all(&node.entries, alloc)?,
        weight: node.weight,
        depth: node.depth,
    })
}

/// More entries, behind the others.
fn add(node: &mut Node, more: Vec<Value>) -> Result<(), AllocError>
    requires measured { IsMeasured node.old }
    ensures measured { IsMeasured node.new }
    ensures ok { OnOk result (contents_of_all node.new.entries.items ≡ join (contents_of_all node.old.entries.items) (contents_of_all more.items)) }
    ensures err { OnErr result (contents_of_all node.new.entries.items ≡ contents_of_all node.old.entries.items) }
{
    let mut added = more;
    let (heavier, deep) = (
        total_weight(added.as_slice()),
        greatest_depth(added.as_slice()),
    );
    node.entries.append(&mut added)?;
    node.weight = node.weight.saturating_add(heavier);
    node.depth = node.depth.max(deep);
    Ok(())
}
