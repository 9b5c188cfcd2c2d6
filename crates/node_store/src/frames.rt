ghost use Rattle.std.specs.Prelude.{◌≡◌, ℕ, List, ◌∷◌, reverse, OnOk, OnErr};
ghost use Rattle.node_data.specs.declared.kid.Kid.{Kid as AKid};
ghost use Rattle.node_store.specs.Walking.{Frame as Entered};
ghost use Rattle.node_store.specs.Kids.{kids_seen};
ghost use Rattle.node_store.specs.Frames.{HasNext, IsTop, top_of};

use crate::frame::Frame;
use crate::kids::Kids;
use grammar_data::Token;
use lr_base::NoMemory;
use node_data::{Kid, NodeRef};

/// What the innermost of the nodes that were entered has next: nothing, where there is no node; its end; or a kid.
#[derive(Clone, Copy)]
pub enum Top {
    Nothing,
    End(NodeRef),
    Token(Token),
    Node(NodeRef),
    Hidden,
}

/// A kid as what comes next.
fn next_as(kid: Kid) -> Top
    ensures { result ≡ top_of kid }
{
    match kid {
        Kid::Token(token) => Top::Token(token),
        Kid::Node(node) => Top::Node(node),
        Kid::Hidden => Top::Hidden,
    }
}

/// What comes next: nothing, where there is no node; the end of the innermost node; or its next kid.
pub fn innermost(frames: &[Frame<'_>]) -> Top
    ensures { IsTop (reverse frames.now) result }
{
    let Some(frame) = frames.last() else {
        return Top::Nothing;
    };
    match frame.next_kid() {
        None => Top::End(frame.node()),
        Some(kid) => next_as(kid),
    }
}

/// Enters a node.
pub fn push<'a>(frames: &mut Vec<Frame<'a>>, node: NodeRef, kids: Kids<'a>) -> Result<(), NoMemory>
    ensures ok { OnOk result (reverse frames.new.items ≡ (node, kids_seen kids.entry) ∷ reverse frames.old.items) }
    ensures err { OnErr result (frames.new.items ≡ frames.old.items) }
{
    frames.push(Frame::new(node, kids))?;
    Ok(())
}

/// Leaves the innermost node.
pub fn leave(frames: &mut Vec<Frame<'_>>)
    ensures { (frame : Entered) (below : List Entered) → reverse frames.old.items ≡ frame ∷ below
        → reverse frames.new.items ≡ below }
{
    let _ = frames.pop();
}

/// Goes past the next kid of the innermost node.
pub fn skip(frames: &mut Vec<Frame<'_>>)
    requires { HasNext (reverse frames.old.items) }
    ensures { (n : ℕ × ℕ) (kid : AKid) (rest : List AKid) (below : List Entered)
        → reverse frames.old.items ≡ (n, kid ∷ rest) ∷ below
        → reverse frames.new.items ≡ (n, rest) ∷ below }
{
    let last = frames.len() - 1;
    frames[last].skip();
}

/// Enters the node that the next kid of the innermost node is, and goes past that kid.
pub fn enter<'a>(frames: &mut Vec<Frame<'a>>, node: NodeRef, kids: Kids<'a>) -> Result<(), NoMemory>
    requires { HasNext (reverse frames.old.items) }
    ensures ok { OnOk result ((n : ℕ × ℕ) (kid : AKid) (rest : List AKid) (below : List Entered)
        → reverse frames.old.items ≡ (n, kid ∷ rest) ∷ below
        → reverse frames.new.items ≡ (node, kids_seen kids.entry) ∷ (n, rest) ∷ below) }
    ensures err { OnErr result (frames.new.items ≡ frames.old.items) }
{
    let last = frames.len() - 1;
    frames.push(Frame::new(node, kids))?;
    frames[last].skip();
    Ok(())
}
