ghost use Rattle.std.specs.Prelude.{◌≡◌, ◌≢◌, ◌+◌, ◌/◌, ◌<◌, ◌≤◌};
ghost use Rattle.core_theory.specs.Tree.{Range, whole_range, IsRange, IsParent};
ghost use Rattle.join_core.specs.Nodes.{IsAbove, range_from};

/// The node of which a range is a part: its boundary, and whether the range is its left part.
#[derive(Clone, Copy, Debug, PartialEq, Eq)]
pub struct Above {
    pub boundary: u32,
    pub is_left: bool,
}

/// A node: its leaves from `first` up to `last`, its boundary, and whether the range that it was asked for is its left part.
#[derive(Clone, Copy)]
pub struct Node {
    pub first: u32,
    pub boundary: u32,
    pub last: u32,
    pub is_left: bool,
}

/// The node of which a range is a part. The search goes down the tree once.
pub fn node_above(first: u32, last: u32, leaves: u32) -> Node
    requires range { IsRange leaves (range_from first last) }
    requires part { range_from first last ≢ whole_range leaves }
    ensures parent { IsParent leaves (range_from first last) (range_from result.first result.last) result.is_left }
    ensures boundary { result.boundary ≡ (result.first + result.last) / 2 }
{
    let mut low = 0;
    let mut high = leaves;
    loop {
        let boundary = low + (high - low) / 2;
        if last <= boundary {
            if first == low && last == boundary {
                return Node {
                    first: low,
                    boundary,
                    last: high,
                    is_left: true,
                };
            }
            high = boundary;
        } else {
            if first == boundary && last == high {
                return Node {
                    first: low,
                    boundary,
                    last: high,
                    is_left: false,
                };
            }
            low = boundary;
        }
    }
}

/// Where the range of leaves from `first` up to `last` stands in the tree over `leaves` leaves: the boundary of the node of
/// which it is a part, and on which side. The range must be one of the tree, and not that of all leaves; then the answer is
/// the only one. It takes as many steps as the range is deep, for 4,096 leaves at most 12.
pub fn parent(first: u32, last: u32, leaves: u32) -> Above
    requires range { IsRange leaves (range_from first last) }
    requires part { range_from first last ≢ whole_range leaves }
    ensures { IsAbove leaves (range_from first last) result }
{
    let node = node_above(first, last, leaves);
    Above {
        boundary: node.boundary,
        is_left: node.is_left,
    }
}
