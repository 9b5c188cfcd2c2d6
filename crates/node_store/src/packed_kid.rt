ghost use Rattle.std.specs.Prelude.{◌≡◌};
ghost use Rattle.node_store.specs.Packing.{CanPack};

use grammar_data::{Place, Token, TokenId};
use node_data::{Kid, NodeRef};
use std::marker::Model;

/// The tag of a node.
const NODE_TAG: u32 = 4_294_967_295;

/// The tag of a hidden kid.
const HIDDEN_TAG: u32 = 4_294_967_294;

/// How many numbers there are below the upper half of a place.
const HALF: u64 = 4_294_967_296;

/// A kid in 16 bytes, as nodes keep it. Contracts see the kid.
#[derive(Clone, Copy, Debug)]
pub struct PackedKid {
    tag: u32,
    first: u32,
    second: u32,
    third: u32,
}

impl Model for PackedKid {
    ghost use Rattle.node_data.specs.declared.kid.Kid.{Kid};
    ghost use Rattle.node_store.specs.Packing.{IsPacking, first_of, kid_of, second_of, tag_of, third_of};

    ghost Value = { Kid };

    ghost view = { λ s. kid_of s.tag s.first s.second s.third };

    ghost invariant = { λ s. IsPacking s.tag s.first s.second s.third };

    ghost inverse = { λ kid. record { tag = tag_of kid; first = first_of kid; second = second_of kid; third = third_of kid } };

    ghost inverse_ok = { λ s h i. record { tag = h.same_tag i; first = h.same_first i; second = h.same_second i; third = h.same_third i } };
}

const _: () = prove!(std::mem::size_of::<PackedKid>() == 16);

impl PackedKid {
    /// The packed form of a kid; a token's number is below 2^32 - 2.
    pub fn of(kid: Kid) -> PackedKid
        requires { CanPack kid }
        ensures { result ≡ kid }
    {
        match kid {
            Kid::Token(token) => PackedKid {
                tag: token.id.0,
                first: token.place.line,
                second: token.place.start,
                third: token.place.len,
            },
            Kid::Node(node) => PackedKid {
                tag: NODE_TAG,
                first: node.chunk,
                second: (node.place / HALF) as u32,
                third: (node.place % HALF) as u32,
            },
            Kid::Hidden => PackedKid {
                tag: HIDDEN_TAG,
                first: 0,
                second: 0,
                third: 0,
            },
        }
    }

    /// The kid.
    pub fn kid(self) -> Kid
        ensures { result ≡ self }
    {
        if self.tag == NODE_TAG {
            return Kid::Node(NodeRef {
                place: self.second as u64 * HALF + self.third as u64,
                chunk: self.first,
            });
        }
        if self.tag == HIDDEN_TAG {
            return Kid::Hidden;
        }
        Kid::Token(Token {
            id: TokenId(self.tag),
            place: Place {
                line: self.first,
                start: self.second,
                len: self.third,
            },
        })
    }
}
