use lr_base::{StateId, Token};
use node_store::{NodeRef, Store};

/// What a parse comes to.
#[derive(Debug, Drop)]
pub enum Parsed {
    /// The tokens are a sentence: the root of its only derivation tree, and the store that has its nodes, all in chunk 0.
    Tree {
        root: NodeRef,
        store: Store,
    },
    /// The tokens are no sentence: the index of the first token with which no sentence goes on, that token, `None` exactly
    /// where it is the end, and a state that expects exactly the tokens that could stand there.
    Wrong {
        index: u32,
        token: Option<Token>,
        state: StateId,
    },
}
