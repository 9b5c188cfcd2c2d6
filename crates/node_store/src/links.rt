//! The links of kids that come to a chunk.
ghost use Rattle.std.specs.Prelude.{◌≡◌, ◌≢◌, ℕ, ◌+◌, ◌^◌, ◌≤◌, ◌<◌, [], ◌∷◌, ◌++◌, length, vec_len, vec_capacity, IfNone, IfSome, OnOk, OnErr};
ghost use Rattle.node_data.specs.declared.kid.Kid.TheVariants.{Node as NodeKid};
ghost use Rattle.node_store.specs.Links.{AreNumbered, linked};

use crate::link::{Link, MOST_LINKED, PackedLink};
use crate::packed_kid::PackedKid;
use lr_base::NoMemory;
use node_data::Kid;

/// The place of a kid among the nodes of the chunk of that number, where it is one of them and a link can tell its place.
fn place_in(number: u32, kid: Kid) -> Option<u32>
    ensures some { IfSome result (λ place. (place < 2 ^ 31) × (kid ≡ NodeKid (number, place))) }
    ensures none { IfNone result ((place : ℕ) → place < 2 ^ 31 → kid ≢ NodeKid (number, place)) }
{
    match kid {
        Kid::Node(node) if node.chunk == number && node.place < MOST_LINKED as u64 => Some(
            node.place as u32,
        ),
        _ => None,
    }
}

/// Puts a kid behind the others: a node of the chunk of that number as a link alone, any other kid as a leaf too.
fn push_kid(number: u32, links: &mut Vec<PackedLink>, leaves: &mut Vec<PackedKid>, kid: PackedKid)
    requires links { vec_len links.old < vec_capacity links.old }
    requires leaves { vec_len leaves.old < vec_capacity leaves.old }
    requires few { length leaves.old.items < 2 ^ 31 }
    requires numbered { AreNumbered 0 links.old.items (length leaves.old.items) }
    ensures numbered { AreNumbered 0 links.new.items (length leaves.new.items) }
    ensures kids { linked number leaves.new.items links.new.items
        ≡ linked number leaves.old.items links.old.items ++ kid ∷ [] }
    ensures links { length links.new.items ≡ length links.old.items + 1 }
    ensures leaves { length leaves.new.items ≤ length leaves.old.items + 1 }
    ensures link_room { vec_capacity links.old ≤ vec_capacity links.new }
    ensures leaf_room { vec_capacity leaves.old ≤ vec_capacity leaves.new }
{
    match place_in(number, kid.kid()) {
        Some(place) => links.push_reserved(PackedLink::of(Link::Node(place))),
        None => {
            let index = leaves.len() as u32;
            leaves.push_reserved(kid);
            links.push_reserved(PackedLink::of(Link::Leaf(index)));
        }
    }
}

/// Makes room for so many kids more.
fn make_room(
    links: &mut Vec<PackedLink>,
    leaves: &mut Vec<PackedKid>,
    count: usize,
) -> Result<(), NoMemory>
    ensures links { links.new.items ≡ links.old.items }
    ensures leaves { leaves.new.items ≡ leaves.old.items }
    ensures link_room { OnOk result (vec_len links.new + count ≤ vec_capacity links.new) }
    ensures leaf_room { OnOk result (vec_len leaves.new + count ≤ vec_capacity leaves.new) }
    ensures few { OnOk result (length leaves.new.items + count ≤ 2 ^ 31) }
{
    if count > MOST_LINKED || leaves.len() > MOST_LINKED - count {
        return Err(NoMemory);
    }
    links.reserve(count)?;
    leaves.reserve(count)?;
    Ok(())
}

/// Puts kids behind the others. A refused call leaves the lists as they were.
pub fn push_kids(
    number: u32,
    links: &mut Vec<PackedLink>,
    leaves: &mut Vec<PackedKid>,
    kids: &[PackedKid],
) -> Result<(), NoMemory>
    requires { AreNumbered 0 links.old.items (length leaves.old.items) }
    ensures numbered { AreNumbered 0 links.new.items (length leaves.new.items) }
    ensures kids { OnOk result (linked number leaves.new.items links.new.items
        ≡ linked number leaves.old.items links.old.items ++ kids.now) }
    ensures links { OnOk result (length links.new.items ≡ length links.old.items + length kids.now) }
    ensures links_err { OnErr result (links.new.items ≡ links.old.items) }
    ensures leaves_err { OnErr result (leaves.new.items ≡ leaves.old.items) }
{
    make_room(links, leaves, kids.len())?;
    for kid in kids {
        push_kid(number, links, leaves, *kid);
    }
    Ok(())
}
