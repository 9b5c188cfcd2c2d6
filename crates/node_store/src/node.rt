use grammar_data::RuleId;

/// A node as its chunk keeps it: where its kids end among those of the chunk, and its rule. They begin where those of the
/// node before it end.
#[derive(Clone, Copy, Debug)]
pub struct Node {
    pub end: u32,
    pub rule: RuleId,
}

const _: () = prove!(std::mem::size_of::<Node>() == 8);
