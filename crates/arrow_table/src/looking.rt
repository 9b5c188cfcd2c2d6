ghost use Rattle.std.specs.Prelude.{◌≡◌, ◌<◌, ◌≤◌, IfOk, IsTrue, false, length};
ghost use Rattle.state_sets.specs.Within.{AreWithin};
ghost use Rattle.arrow_table.specs.Looks.{Grows, IsLook, IsLookFrom, NoneErrs, SomeErrs, map_at};

use crate::arrows::Arrows;
use crate::id::ArrowId;
use crate::look::Look;
use lr_base::{NoMemory, Sym, TokenId};
use lr_machine::{Act, Tables};
use state_sets::{Agree, Arrow, class_laws};
use std::alloc::Global;

/// Whether a target of a map errs on a token.
fn some_errs(tables: &Tables, arrow: &Arrow, token: TokenId) -> bool
    requires { AreWithin tables.now.states arrow.now }
    ensures some { IsTrue result → SomeErrs tables.now token arrow.now }
    ensures none { result ≡ false → NoneErrs tables.now token arrow.now }
{
    arrow.holds();
    class_laws();
    for class in 0..arrow.class_count() {
        if let Act::Error = tables.act(arrow.class_target(class), token) {
            return true;
        }
    }
    false
}

impl<'a> Arrows<'a> {
    /// What a look at a token says, by the tables.
    fn find_look(&mut self, alloc: Global, id: ArrowId, token: TokenId) -> Result<Look, NoMemory>
        requires id { id < length self.old.1 }
        requires stands { self.old.2 ≤ id }
        ensures tables { self.new.0 ≡ self.old.0 }
        ensures base { self.new.2 ≡ self.old.2 }
        ensures grows { Grows self.old.1 self.new.1 }
        ensures look { IfOk result (IsLook self.old.0 token (map_at self.old.1 id) self.new.1) }
        ensures stands { IfOk result (IsLookFrom self.new.2) }
    {
        let map = self.map(id);
        if some_errs(self.tables(), map, token) {
            let alive = map.alive(alloc, self.tables(), token)?;
            return Ok(Look::Died(self.add(alive)?));
        }
        match map.agree(self.tables(), token) {
            Agree::Shift => Ok(Look::Shift(self.find_step(alloc, id, Sym::Token(token))?)),
            Agree::Reduce(rule) => Ok(Look::Reduce(rule)),
            Agree::NoneLeft | Agree::Several => Ok(Look::Stuck),
        }
    }

    /// Looks at a token: what the targets of a map do on it. Where some err, the map of the others is there then.
    pub fn look(&mut self, alloc: Global, id: ArrowId, token: TokenId) -> Result<Look, NoMemory>
        requires id { id < length self.old.1 }
        requires stands { self.old.2 ≤ id }
        ensures tables { self.new.0 ≡ self.old.0 }
        ensures base { self.new.2 ≡ self.old.2 }
        ensures grows { Grows self.old.1 self.new.1 }
        ensures look { IfOk result (IsLook self.old.0 token (map_at self.old.1 id) self.new.1) }
        ensures stands { IfOk result (IsLookFrom self.new.2) }
    {
        if let Some(look) = self.known_look(id, token) {
            return Ok(look);
        }
        let look = self.find_look(alloc, id, token)?;
        self.note_look(id, token, &look)?;
        Ok(look)
    }
}
