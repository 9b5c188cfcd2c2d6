ghost use Rattle.std.specs.Prelude.{◌≡◌, ℕ, List, [], IfOk, OnErr};
ghost use Rattle.grammar_theory.specs.Trees.{Tree};
ghost use Rattle.node_data.specs.declared.kid.Kid.TheVariants.{Node as NodeKid};
ghost use Rattle.tree_theory.specs.Stores.{Shows};
ghost use Rattle.node_store.specs.declared.step.Step.{Step as AStep};
ghost use Rattle.node_store.specs.Chunks.{store_of};
ghost use Rattle.node_store.specs.Walking.{IsFinished, Remains, TakesFirst, WalksTree};

use crate::frame::Frame;
use crate::frames::{Top, enter, innermost, leave, push, skip};
use crate::step::Step;
use crate::store::Store;
use lr_base::NoMemory;
use node_data::NodeRef;
use std::alloc::Global;
use std::marker::Model;

/// How many nodes a walk has room for from the start; more room is taken as it goes deeper.
const FIRST_FRAMES: usize = 32;

/// A walk over a tree, from left to right, one step a call. It keeps the nodes that were entered and not yet left in a list of
/// its own, 32 bytes a node, and touches each kid once. Contracts see what is still to come.
#[derive(Drop)]
pub struct Walk<'a> {
    store: &'a Store,
    frames: Vec<Frame<'a>>,
    root: Option<NodeRef>,
}

impl<'a> Model for Walk<'a> {
    ghost use Rattle.std.specs.Prelude.{reverse};
    ghost use Rattle.node_store.specs.Walking.{Walking, WillEnd};

    ghost Value = { Walking };

    ghost view = { λ s. record {
      chunks = s.store.now;
      root = s.root;
      frames = reverse s.frames.items;
    } };

    ghost invariant = { λ s. WillEnd (record {
      chunks = s.store.now;
      root = s.root;
      frames = reverse s.frames.items;
    }) };
}

impl Store {
    /// The walk over the tree at a node, with nothing hidden in it.
    pub fn walk(&self, alloc: Global, root: NodeRef) -> Result<Walk<'_>, NoMemory>
        requires { IsFinished self.now root }
        ensures { IfOk result (λ walk. (n : ℕ × ℕ) (i : ℕ) (tree : Tree)
            → Shows (store_of self.now) [] n i (NodeKid root) tree → WalksTree self.now root tree walk) }
    {
        let frames = Vec::with_capacity(alloc, FIRST_FRAMES)?;
        Ok(Walk {
            store: self,
            frames,
            root: Some(root),
        })
    }
}

impl<'a> Walk<'a> {
    /// The next step; `None` exactly where nothing is to come. A refused call leaves the walk as it was.
    pub fn next_step(&mut self) -> Result<Option<Step>, NoMemory>
        ensures step { IfOk result (λ next. (steps : List AStep) → Remains self.old steps
            → TakesFirst steps next self.new) }
        ensures err { OnErr result (self.new ≡ self.old) }
    {
        if let Some(root) = self.root {
            push(&mut self.frames, root, self.store.kids(root))?;
            self.root = None;
            return Ok(Some(Step::Enter(root)));
        }
        match innermost(&self.frames) {
            Top::Nothing => Ok(None),
            Top::End(node) => {
                leave(&mut self.frames);
                Ok(Some(Step::Leave(node)))
            }
            Top::Token(token) => {
                skip(&mut self.frames);
                Ok(Some(Step::Token(token)))
            }
            Top::Node(node) => {
                enter(&mut self.frames, node, self.store.kids(node))?;
                Ok(Some(Step::Enter(node)))
            }
            Top::Hidden => unreachable!(),
        }
    }
}
