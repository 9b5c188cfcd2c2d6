//! The call that writes a translation.
ghost use Rattle.std.specs.Prelude.{◌≡◌};
ghost use Rattle.grammar_theory.specs.Trees.{Tree};
ghost use Rattle.lr_base.specs.Outside.{IsSameSink};
ghost use Rattle.templates.specs.Sources.{HasTree, IsTreeAt};
ghost use Rattle.translation_theory.specs.Translations.{translation_by};
ghost use Rattle.writing_theory.specs.Writing.{IsWritten};

use crate::source::Source;
use crate::writer::write_tree;
use block_writer::WriteFault;
use lr_base::Sink;
use name_table::Names;
use node_store::{NodeRef, Store};
use sheet_reader::Sheet;
use std::alloc::Global;

/// Writes the translation of the tree below a node, by the templates of a sheet: that of a token is its bytes in the text,
/// that of a node what the parts of its rule's template give, one after another. `$i` gives the translation of part `i`, and
/// `#i` the number of its bytes among the names, counted from 1, in decimal digits, 0 where they are no name. Below the node
/// nothing is hidden, and each node has a rule of the sheet. Bytes are written in blocks of 64 KiB, and a node takes memory
/// only as long as its template is begun and not ended; nothing recurses on the tree. `Failed` comes only where the sink
/// failed, and `NoMemory` is want of memory; behind each the sink has taken some of the translation's first bytes.
///
/// Source: syntax-directed translation as in Aho and Ullman, The Theory of Parsing, Translation, and Compiling, volume 1,
/// section 3.1.
pub fn emit<O: Sink>(
    alloc: Global,
    sheet: &Sheet,
    store: &Store,
    root: NodeRef,
    text: &[u8],
    names: &Names,
    out: &mut O,
) -> Result<(), WriteFault>
    requires { HasTree sheet.now store.now root }
    ensures written { (tree : Tree) → IsTreeAt store.now root tree
        → IsWritten (λ bytes. bytes ≡ translation_by sheet.now text.now names.now tree) (O.seen out.old) (O.seen out.new) result }
    ensures same { IsSameSink (O.seen out.old) (O.seen out.new) }
{
    let source = Source {
        sheet,
        store,
        text,
        names,
    };
    write_tree(alloc, &source, root, out)
}
