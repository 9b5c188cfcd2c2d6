use grammar_data::Token;
use node_data::NodeRef;

/// A step of a walk over a tree: a node is entered before its kids and left after them.
#[derive(Clone, Copy, Debug, PartialEq, Eq)]
pub enum Step {
    Enter(NodeRef),
    Token(Token),
    Leave(NodeRef),
}
