use crate::node_ref::NodeRef;
use grammar_data::Token;

/// A kid of a node: a token of the text, another node, or hidden, as long as the tree that will stand there is known to
/// what stands around the node alone.
#[derive(Clone, Copy, Debug, PartialEq, Eq)]
pub enum Kid {
    Token(Token),
    Node(NodeRef),
    Hidden,
}
