//! Rows of stores, over ample memory.
ghost use Rattle.std.specs.Prelude.{◌≡◌, ◌∷◌, [], Some, IfOk};
ghost use Rattle.node_store.specs.Chunks.{IsNodeOf, numbers_in, store_of};

use grammar_data::{Place, RuleId, Token, TokenId};
use lr_base::NoMemory;
use node_store::{Kid, NodeRef, PackedKid, Step, Store};
use std::alloc::Global;
use std::test::Fail;

/// A token of one byte on the first line.
fn token(start: u32) -> Token
    ensures { result.id ≡ 4 }
{
    Token {
        id: TokenId(4),
        place: Place {
            line: 1,
            start,
            len: 1,
        },
    }
}

/// A store of one chunk with one node.
fn store_with(
    alloc: Global,
    chunk: u32,
    rule: RuleId,
    kids: &[PackedKid],
) -> Result<(Store, NodeRef), NoMemory>
    ensures chunks { IfOk result (λ made. numbers_in made.0 ≡ chunk ∷ []) }
    ensures node { IfOk result (λ made. store_of made.0 made.1 ≡ Some (rule, kids.now)) }
{
    let mut store = Store::new(alloc);
    store.add_chunk(alloc, chunk)?;
    let node = store.add(chunk, rule, kids)?;
    Ok((store, node))
}

/// Whether a node has this rule, and these kids alone.
fn is_node(store: &Store, node: NodeRef, rule: RuleId, kids: &[Kid]) -> bool
    requires { IsNodeOf store.now node }
{
    let found = store.kids(node);
    let mut same = store.rule(node) == rule && found.len() == kids.len();
    for (at, other) in kids.iter().enumerate() {
        same = same && found.get(at) == Some(*other);
    }
    same
}

#[test]
fn a_node_has_its_rule_and_its_kids(rt: HostRuntime) -> Result<(), Fail> {
    let first = Kid::Token(token(0));
    let kids = [PackedKid::of(first), PackedKid::of(Kid::Hidden)];
    let (store, node) = store_with(rt.alloc(), 3, RuleId(17), &kids)?;
    assert!(rt; store.has_chunk(3) && !store.has_chunk(0) && store.node_count() == 1);
    assert!(rt; node == NodeRef { place: 0, chunk: 3 });
    assert!(rt; is_node(&store, node, RuleId(17), &[first, Kid::Hidden]));
    Ok(())
}

#[test]
fn the_kids_of_a_node_are_taken_from_a_list(rt: HostRuntime) -> Result<(), Fail> {
    let mut store = Store::new(rt.alloc());
    store.add_chunk(rt.alloc(), 0)?;
    let mut kids = Vec::new(rt.alloc());
    kids.push(PackedKid::of(Kid::Token(token(0))))?;
    kids.push(PackedKid::of(Kid::Token(token(1))))?;
    kids.push(PackedKid::of(Kid::Token(token(2))))?;
    let node = store.add_from(0, RuleId(1), &mut kids, 2)?;
    assert!(rt; kids.len() == 1 && kids[0].kid() == Kid::Token(token(0)));
    assert!(rt;
        is_node(
            &store,
            node,
            RuleId(1),
            &[Kid::Token(token(1)), Kid::Token(token(2))]
        )
    );
    Ok(())
}

#[test]
fn joined_stores_keep_the_nodes_of_both(rt: HostRuntime) -> Result<(), Fail> {
    let (mut store, one) = store_with(rt.alloc(), 0, RuleId(5), &[])?;
    let leaf = Kid::Token(token(9));
    let (more, other) = store_with(rt.alloc(), 8192, RuleId(6), &[PackedKid::of(leaf)])?;
    match store.append(more) {
        Ok(()) => {}
        Err(_) => return Err(Fail::from("want of memory")),
    }
    assert!(rt; store.has_chunk(0) && store.has_chunk(8192) && store.node_count() == 2);
    assert!(rt; is_node(&store, one, RuleId(5), &[]));
    assert!(rt; is_node(&store, other, RuleId(6), &[leaf]));
    Ok(())
}

#[test]
fn a_hidden_kid_is_filled(rt: HostRuntime) -> Result<(), Fail> {
    let (mut store, node) = store_with(rt.alloc(), 0, RuleId(2), &[PackedKid::of(Kid::Hidden)])?;
    let leaf = Kid::Token(token(7));
    store.fill(node, 0, PackedKid::of(leaf));
    assert!(rt; is_node(&store, node, RuleId(2), &[leaf]) && store.node_count() == 1);
    Ok(())
}
