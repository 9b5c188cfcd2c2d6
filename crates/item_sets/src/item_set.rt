ghost use Rattle.std.specs.Prelude.{◌≡◌, ◌++◌, ◌∷◌, [], IfOk};

use collection_data::Entry;
use std::alloc::AllocError;
use std::marker::Model;

/// The entries of one state. Contracts see their list.
#[derive(Debug, Drop)]
pub struct ItemSet {
    pub entries: Vec<Entry>,
}

impl Model for ItemSet {
    ghost use Rattle.std.specs.Prelude.{List};
    ghost use Rattle.collection_data.specs.declared.entry.Entry.{Entry as Lookaheads};

    ghost Value = { List Lookaheads };

    ghost view = { λ s. s.entries.items };
}

impl ItemSet {
    /// Puts an entry last.
    pub fn push(&mut self, entry: Entry) -> Result<(), AllocError>
        ensures { IfOk result (λ _. self.new ≡ self.old ++ entry ∷ []) }
    {
        self.entries.push(entry)?;
        Ok(())
    }
}
