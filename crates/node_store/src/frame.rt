ghost use Rattle.std.specs.Prelude.{◌≡◌, ◌<◌, drop, length, slice_get};
ghost use Rattle.node_store.specs.Kids.{kids_seen};

use crate::kids::Kids;
use node_data::{Kid, NodeRef};
use std::marker::Model;

/// A node that was entered, and those of its kids that are still to come. Contracts see the pair.
#[derive(Drop)]
pub struct Frame<'a> {
    rest: Kids<'a>,
    node: NodeRef,
}

impl<'a> Model for Frame<'a> {
    ghost use Rattle.node_store.specs.Kids.{kids_seen};
    ghost use Rattle.node_store.specs.Walking.{Frame as Entered};

    ghost Value = { Entered };

    ghost view = { λ s. (s.node, kids_seen s.rest) };
}

impl<'a> Frame<'a> {
    /// A node with all its kids.
    pub fn new(node: NodeRef, kids: Kids<'a>) -> Frame<'a>
        ensures { result ≡ (node, kids_seen kids.entry) }
    {
        Frame { rest: kids, node }
    }

    /// The node.
    pub fn node(&self) -> NodeRef
        ensures { result ≡ self.now.0 }
    {
        self.node
    }

    /// The next kid, if there is one.
    pub fn next_kid(&self) -> Option<Kid>
        ensures { result ≡ slice_get self.now.1 0 }
    {
        self.rest.get(0)
    }

    /// Goes past the next kid.
    pub fn skip(&mut self)
        requires { 0 < length self.old.1 }
        ensures { self.new ≡ (self.old.0, drop 1 self.old.1) }
    {
        self.rest = self.rest.rest();
    }
}
