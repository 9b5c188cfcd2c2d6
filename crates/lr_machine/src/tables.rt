ghost use Rattle.std.specs.Prelude.{◌≡◌, ◌≢◌, ◌↔◌, ℕ, ◌+◌, ◌<◌, ◌≤◌, ◌==◌, ◌&&◌, if◌then◌else◌, IsTrue, IfOk, Some, length, slice_get, All};
ghost use Rattle.std.specs.Option.{option_map};
ghost use Rattle.lr_base.specs.declared.limits.TheConstants.{RULES, SIDE_SYMBOLS, TOKENS};
ghost use Rattle.table_data.specs.declared.limits.TheConstants.{MOST_STATES};
ghost use Rattle.lr_base.specs.IsGrammar.{IsSymbolOf};
ghost use Rattle.table_data.specs.declared.act.Act.TheVariants.{Error};
ghost use Rattle.table_data.specs.Tables.{IsActOf, IsGotoOf, act_in, goto_in};
ghost use Rattle.lr_machine.specs.Expected.{AreExpectedIn};
ghost use Rattle.lr_machine.specs.IsTables.{AreBlank, IsTables};

use crate::cell::ActCell;
use crate::rules::copy_rules;
use lr_base::{Grammar, NameId, NoMemory, Rule, RuleId, StateId, Sym, TokenId};
use state_cells::StateCell;
use std::alloc::Global;
use std::marker::Model;
use table_data::Act;

/// LR tables: an action for each state and each token or the end mark, for each state and each name the state to go to,
/// if any, and the rules. The cells lie in one list, row by state, 4 bytes each. There are at most 250 tokens,
/// 500 names, 1,000 rules and 10,000 states.
#[derive(Debug, Drop)]
pub struct Tables {
    acts: Vec<ActCell>,
    gotos: Vec<StateCell>,
    rules: Vec<Rule>,
    tokens: u32,
    names: u32,
    states: u32,
}

impl Model for Tables {
    ghost use Rattle.table_data.specs.Tables.{Tables as TableParts};

    ghost Value = { TableParts };

    ghost use Rattle.lr_machine.specs.Parts.{parts_of};
    ghost use Rattle.lr_machine.specs.IsTables.{IsTables};

    ghost view = { parts_of };

    ghost invariant = { λ s. IsTables (parts_of s) };
}

impl Tables {
    /// Tables with the rules of the grammar and so many states, at most 10,000. Each action is an error, and there is no
    /// goto.
    pub fn blank(alloc: Global, grammar: &Grammar, states: u32) -> Result<Tables, NoMemory>
        requires { states ≤ MOST_STATES }
        ensures { IfOk result (λ tables. AreBlank grammar.now states tables) }
    {
        let tokens = grammar.tokens();
        let names = grammar.names();
        let rules = copy_rules(alloc, grammar.rules())?;
        let width = tokens as usize + 1;
        let acts = vec![in alloc; ActCell::of(Act::Error); states as usize * width]?;
        let gotos = vec![in alloc; StateCell::of(None); states as usize * names as usize]?;
        Ok(Tables {
            acts,
            gotos,
            rules,
            tokens,
            names,
            states,
        })
    }

    /// What holds of all tables.
    pub fn holds(&self)
        ensures { IsTables self.now }
    {
        let _ = &self.tokens;
    }

    /// What a state does on a token, on the end mark, or on the bad byte, on which every state errs.
    pub fn act(&self, state: StateId, token: TokenId) -> Act
        requires { state < self.now.states }
        ensures act { result ≡ act_in self.now state token }
        ensures in_range { IsActOf self.now.states (length self.now.rules) result }
        ensures bad { token ≡ self.now.tokens + 1 → result ≡ Error }
    {
        if token.0 > self.tokens {
            return Act::Error;
        }
        let width = self.tokens as usize + 1;
        self.acts[state.0 as usize * width + token.0 as usize].act()
    }

    /// The state that a state goes to along a name; `None` where the cell is empty.
    pub fn goto_name(&self, state: StateId, name: NameId) -> Option<StateId>
        requires state { state < self.now.states }
        requires name { name < self.now.names }
        ensures goto { result ≡ goto_in self.now state name }
        ensures in_range { IsGotoOf self.now.states result }
    {
        let width = self.names as usize;
        self.gotos[state.0 as usize * width + name.0 as usize].state()
    }

    /// Whether the action of a state on a token, on the end mark or on the bad byte is another than an error.
    pub fn expects(&self, state: StateId, token: TokenId) -> bool
        requires { state < self.now.states }
        ensures { IsTrue result ↔ (act_in self.now state token ≢ Error) }
    {
        !matches!(self.act(state, token), Act::Error)
    }

    /// The tokens that a state expects, in the order of their numbers, the end mark last: those on which its action is another
    /// than an error. They are at most 251.
    pub fn expected(&self, alloc: Global, state: StateId) -> Result<Vec<TokenId>, NoMemory>
        requires { state < self.now.states }
        ensures { IfOk result (λ tokens. AreExpectedIn self.now state tokens.items) }
    {
        let mut tokens = Vec::new(alloc);
        for number in 0..self.tokens + 1 {
            let token = TokenId(number);
            if self.expects(state, token) {
                tokens.push(token)?;
            }
        }
        Ok(tokens)
    }

    /// How many states there are; they are numbered from 0.
    pub fn states(&self) -> u32
        ensures states { result ≡ self.now.states }
        ensures few { result ≤ MOST_STATES }
    {
        self.states
    }

    /// How many rules there are; they are numbered from 0.
    pub fn rule_count(&self) -> u32
        ensures rules { result ≡ length self.now.rules }
        ensures few { result ≤ RULES }
    {
        self.rules.len() as u32
    }

    /// The number of the end mark, the first after the tokens.
    pub fn end(&self) -> TokenId
        ensures end { result ≡ self.now.tokens }
        ensures few { result ≤ TOKENS }
    {
        TokenId(self.tokens)
    }

    /// The left side of a rule.
    pub fn left(&self, rule: RuleId) -> NameId
        requires { rule < length self.now.rules }
        ensures left { option_map (λ rule. rule.0) (slice_get self.now.rules rule) ≡ Some result }
        ensures in_range { result < self.now.names }
    {
        self.rules[rule.0 as usize].left
    }

    /// The right side of a rule.
    pub fn right(&self, rule: RuleId) -> &[Sym]
        requires { rule < length self.now.rules }
        ensures right { option_map (λ rule. rule.1) (slice_get self.now.rules rule) ≡ Some result.now }
        ensures in_range { All (IsSymbolOf self.now.tokens self.now.names) result.now }
        ensures short { length result.now ≤ SIDE_SYMBOLS }
    {
        &self.rules[rule.0 as usize].right
    }

    /// Sets the action of a state on a token or on the end mark, and nothing else.
    pub fn set_act(&mut self, state: StateId, token: TokenId, act: Act)
        requires state { state < self.old.states }
        requires token { token ≤ self.old.tokens }
        requires act { IsActOf self.old.states (length self.old.rules) act }
        ensures act { (q a : ℕ) → act_in self.new q a
            ≡ (if (q == state) && (a == token) then act else act_in self.old q a) }
        ensures rest { self.new ≡ record self.old { acts = self.new.acts } }
    {
        let width = self.tokens as usize + 1;
        self.acts[state.0 as usize * width + token.0 as usize] = ActCell::of(act);
    }

    /// Sets the state that a state goes to along a name, and nothing else.
    pub fn set_goto(&mut self, state: StateId, name: NameId, to: StateId)
        requires state { state < self.old.states }
        requires name { name < self.old.names }
        requires to { to < self.old.states }
        ensures goto { (q n : ℕ) → goto_in self.new q n
            ≡ (if (q == state) && (n == name) then Some to else goto_in self.old q n) }
        ensures rest { self.new ≡ record self.old { gotos = self.new.gotos } }
    {
        let width = self.names as usize;
        self.gotos[state.0 as usize * width + name.0 as usize] = StateCell::of(Some(to));
    }
}
