//! The translation of a whole tree.
ghost use Rattle.std.specs.Prelude.{◌≡◌};
ghost use Rattle.grammar_theory.specs.Trees.{Tree};
ghost use Rattle.lr_base.specs.Outside.{IsSameSink};
ghost use Rattle.templates.specs.Sources.{HasRules, HasTree, IsTreeAt};
ghost use Rattle.translation_theory.specs.Translations.{translation_by};
ghost use Rattle.writing_theory.specs.Writing.{IsWritten};

use crate::source::Source;
use crate::steps::step;
use block_writer::{Blocks, WriteFault};
use lr_base::Sink;
use node_store::NodeRef;
use std::alloc::Global;

/// Writes the translation of the tree below a node, in blocks.
pub fn write_tree<O: Sink>(
    alloc: Global,
    source: &Source,
    root: NodeRef,
    out: &mut O,
) -> Result<(), WriteFault>
    requires { HasTree source.now.sheet source.now.chunks root }
    ensures written { (tree : Tree) → IsTreeAt source.now.chunks root tree → HasRules source.now.sheet tree
        → IsWritten (λ bytes. bytes ≡ translation_by source.now.sheet source.now.text source.now.names tree) (O.seen out.old) (O.seen out.new) result }
    ensures same { IsSameSink (O.seen out.old) (O.seen out.new) }
{
    let mut last = source.frame(root);
    let mut frames = Vec::new(alloc);
    let mut blocks = Blocks::new(alloc);
    for _step in 0..u64::MAX {
        let Some(next) = step(source, last, &mut frames, &mut blocks.gathered)? else {
            blocks.finish(out)?;
            return Ok(());
        };
        blocks.pass(out)?;
        last = next;
    }
    Err(WriteFault::NoMemory)
}
