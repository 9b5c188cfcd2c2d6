ghost use Rattle.std.specs.Prelude.{◌≡◌, ◌≢◌, ℕ, ◌+◌, ◌-◌, ◌^◌, ◌<◌, ◌≤◌, List, [], ◌∷◌, ◌++◌, length, slice_get, IfOk, OnOk};
ghost use Rattle.node_data.specs.declared.kid.Kid.TheVariants.{Token as TokenKid, Node as NodeKid};
ghost use Rattle.lr_base.specs.declared.limits.TheConstants.{TEXT_BYTES};
ghost use Rattle.lawful_theory.specs.Lawful.{IsLawful};
ghost use Rattle.plain_parse.specs.Runs.{token_of};

use crate::parsed::Parsed;
use crate::run::Run;
use lr_base::{NoMemory, RuleId, StateId, Token, TokenId};
use lr_machine::{Act, Tables};
use node_store::{Kid, PackedKid, Store};
use std::alloc::Global;

/// The chunk that has all nodes of a parse.
const CHUNK: u32 = 0;

/// The token of the input at an index: one of the tokens, or behind them the end mark.
fn token_at(tables: &Tables, tokens: &[Token], index: usize) -> TokenId
    ensures { result ≡ token_of tables.now tokens.now index }
{
    match tokens.get(index) {
        Some(token) => token.id,
        None => tables.end(),
    }
}

impl Run {
    ghost use Rattle.plain_parse.specs.declared.parsed.Parsed.TheVariants.{Wrong};
    ghost use Rattle.plain_parse.specs.Parses.{IsFinish};
    ghost use Rattle.plain_parse.specs.Runs.{HasRoot, IsReducedBy, IsReducible, IsRun, IsSettled, IsStart, top_of};

    /// A parse that has read nothing.
    pub fn new(alloc: Global) -> Result<Run, NoMemory>
        ensures { IfOk result (λ run. IsStart run) }
    {
        let mut states = Vec::new(alloc);
        states.push(StateId(0))?;
        let mut store = Store::new(alloc);
        store.add_chunk(alloc, CHUNK)?;
        Ok(Run {
            states,
            kids: Vec::new(alloc),
            store,
        })
    }

    /// The state on top.
    pub fn top(&self) -> StateId
        requires { 0 < length self.now.states.items }
        ensures { result ≡ top_of self.now }
    {
        self.states[self.states.len() - 1]
    }

    /// Makes all reductions under the token of the input at an index. Gives the action that comes after them: a shift, an
    /// acceptance, or an error.
    pub fn settle(
        &mut self,
        tables: &Tables,
        tokens: &[Token],
        index: usize,
    ) -> Result<Act, NoMemory>
        requires lawful { IsLawful tables.now }
        requires index { index ≤ length tokens.now }
        requires run { IsRun tables.now tokens.now index self.old }
        ensures run { OnOk result (IsRun tables.now tokens.now index self.new) }
        ensures act { IfOk result (λ act. IsSettled tables.now tokens.now index self.new act) }
    {
        let token = token_at(tables, tokens, index);
        loop {
            match tables.act(self.top(), token) {
                Act::Reduce(rule) => self.reduce(tables, rule)?,
                act => return Ok(act),
            }
        }
    }

    /// Shifts a token and goes to a state.
    pub fn shift(&mut self, token: Token, state: StateId) -> Result<(), NoMemory>
        requires { token.id < 2 ^ 32 - 2 }
        ensures states { OnOk result (self.new.states.items ≡ self.old.states.items ++ state ∷ []) }
        ensures kids { OnOk result (self.new.kids.items ≡ self.old.kids.items ++ TokenKid token ∷ []) }
        ensures store { OnOk result (self.new.store ≡ self.old.store) }
    {
        self.states.push(state)?;
        self.kids.push(PackedKid::of(Kid::Token(token)))?;
        Ok(())
    }

    /// Makes a node of the kids on top, as many as the rule has symbols on its right side, and goes along the rule's name.
    fn reduce(&mut self, tables: &Tables, rule: RuleId) -> Result<(), NoMemory>
        requires { IsReducible tables.now rule self.old }
        ensures { OnOk result (IsReducedBy tables.now rule self.old self.new) }
    {
        let count = tables.right(rule).len();
        let rest = self.states.len() - count;
        let Some(state) = tables.goto_name(self.states[rest - 1], tables.left(rule)) else {
            unreachable!()
        };
        let node = self.store.add_from(CHUNK, rule, &mut self.kids, count)?;
        // The number of nodes is below 2^64, which is why reductions end.
        let _nodes = self.store.node_count();
        self.kids.push(PackedKid::of(Kid::Node(node)))?;
        self.states.truncate(rest);
        self.states.push(state)?;
        Ok(())
    }

    /// The answer of a parse that accepts: the kid that is left is the root.
    pub fn finish(self) -> Parsed
        requires { HasRoot self }
        ensures { IsFinish self result }
    {
        let Run {
            states: _,
            kids,
            store,
        } = self;
        match kids[0].kid() {
            Kid::Node(root) => Parsed::Tree { root, store },
            Kid::Token(_) | Kid::Hidden => unreachable!(),
        }
    }

    /// The answer of a parse that errs at an index of the input.
    pub fn wrong(&self, tokens: &[Token], index: usize) -> Parsed
        requires states { 0 < length self.now.states.items }
        requires few { length tokens.now ≤ TEXT_BYTES }
        requires index { index ≤ length tokens.now }
        ensures { result ≡ Wrong index (slice_get tokens.now index) (top_of self.now) }
    {
        Parsed::Wrong {
            index: index as u32,
            token: tokens.get(index).copied(),
            state: self.top(),
        }
    }
}
