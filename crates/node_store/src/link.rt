ghost use Rattle.std.specs.Prelude.{◌≡◌};
ghost use Rattle.node_store.specs.Links.{CanLink};

use std::marker::Model;

/// How a chunk finds a kid: it is the node at a place of the chunk itself, or stands among the leaves, at an index.
#[derive(Clone, Copy, Debug)]
pub enum Link {
    Node(u32),
    Leaf(u32),
}

/// How many places and how many indices links can tell.
pub const MOST_LINKED: usize = 2_147_483_648;

/// A link in 4 bytes. Contracts see the link.
#[derive(Clone, Copy, Debug)]
pub struct PackedLink {
    bits: u32,
}

impl Model for PackedLink {
    ghost use Rattle.std.specs.Prelude.{◌≡◌};
    ghost use Rattle.std.proofs.Common.{ap};
    ghost use Rattle.node_store.specs.declared.link.Link.{Link};
    ghost use Rattle.node_store.specs.Links.{bits_of, link_of};

    ghost Value = { Link };

    ghost view = { λ s. link_of s.bits };

    ghost invariant = { λ s. bits_of (link_of s.bits) ≡ s.bits };

    ghost inverse = { λ link. record { bits = bits_of link } };

    ghost inverse_ok = { λ s h. ap (λ n. record { bits = n }) h };
}

const _: () = prove!(std::mem::size_of::<PackedLink>() == 4);

impl PackedLink {
    /// The packed form of a link; its place or index is below 2^31.
    pub fn of(link: Link) -> PackedLink
        requires { CanLink link }
        ensures { result ≡ link }
    {
        match link {
            Link::Node(place) => PackedLink { bits: 2 * place },
            Link::Leaf(index) => PackedLink {
                bits: 2 * index + 1,
            },
        }
    }

    /// The link.
    pub fn link(self) -> Link
        ensures { result ≡ self }
    {
        if self.bits % 2 == 0 {
            Link::Node(self.bits / 2)
        } else {
            Link::Leaf(self.bits / 2)
        }
    }
}
