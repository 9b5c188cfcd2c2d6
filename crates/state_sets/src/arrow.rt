ghost use Rattle.std.specs.Prelude.{◌≡◌, ℕ, ◌<◌, ◌≤◌, Option, None, Some, IfSome, IfNone, IfOk, length, map, slice_get, All};
ghost use Rattle.table_data.specs.declared.limits.TheConstants.{MOST_STATES};
ghost use Rattle.map_theory.specs.Maps.{IsRising, followed, target};
ghost use Rattle.map_theory.specs.Agreements.{Agrees};
ghost use Rattle.map_theory.specs.Relations.{AreAlive, IsBack, IsComposed, IsIdentityOf, IsRestricted, IsThenSymbol};
ghost use Rattle.state_sets.specs.Classes.{targets_of};
ghost use Rattle.std.specs.Arc.{arc_value};
ghost use Rattle.state_sets.specs.Parts.{AreClassed, IsArrow, pairs_of};
ghost use Rattle.state_sets.specs.Within.{AreWithin, HasSymbol};

use crate::agreeing::agreement;
use crate::building::Building;
use crate::choosing::{kept, to_themselves};
use crate::images::{after_symbol, alive_on, through};
use crate::making::starts_before;
use crate::places::{class_in, pair_in, target_in};
use crate::spreading::spread;
use lr_base::{NoMemory, StateId, Sym, TokenId};
use lr_machine::Tables;
use map_theory::Agree;
use std::alloc::Global;
use std::marker::Model;
use std::sync::Arc;

/// A finite map from states, its starts, to states, its targets, which contracts see as the list of its pairs with rising
/// starts. A copy shares its lists.
#[derive(Debug, Drop)]
pub struct Arrow {
    parts: Arc<Parts, Global>,
}

/// The lists of a map: the starts, which other maps may share, the class of each, and the target of each class.
#[derive(Debug, Drop)]
struct Parts {
    starts: Arc<Vec<StateId>, Global>,
    classes: Vec<u32>,
    targets: Vec<StateId>,
}

impl Model for Arrow {
    ghost use Rattle.std.specs.Arc.{arc_value};
    ghost use Rattle.map_theory.specs.Maps.{StateMap};
    ghost use Rattle.state_sets.specs.Parts.{IsArrow, pairs_of};

    ghost Value = { StateMap };

    ghost view = { λ s. pairs_of (arc_value (arc_value s.parts).starts).items (arc_value s.parts).classes.items
        (arc_value s.parts).targets.items };

    ghost invariant = { λ s. IsArrow (arc_value (arc_value s.parts).starts).items (arc_value s.parts).classes.items
        (arc_value s.parts).targets.items };
}

impl Arrow {
    /// What holds of all maps: the starts rise, and there are at most as many as tables may have states.
    pub fn holds(&self)
        ensures rising { IsRising self.now }
        ensures few { length self.now ≤ MOST_STATES }
    {
        let _ = &self.parts;
    }

    /// How many pairs there are.
    pub fn len(&self) -> u32
        ensures { result ≡ length self.now }
    {
        self.parts.classes.len() as u32
    }

    /// A pair, a start and its target, in the order of the starts.
    pub fn pair(&self, i: u32) -> (StateId, StateId)
        requires { i < length self.now }
        ensures { slice_get self.now i ≡ Some result }
    {
        pair_in(
            &self.parts.starts,
            &self.parts.classes,
            &self.parts.targets,
            i as usize,
        )
    }

    /// The target of a start; `None` exactly where it is none.
    pub fn target(&self, start: StateId) -> Option<StateId>
        ensures { result ≡ target self.now start }
    {
        target_in(
            &self.parts.starts,
            &self.parts.classes,
            &self.parts.targets,
            start,
        )
    }

    /// How many classes there are: so many different targets.
    pub fn class_count(&self) -> u32
        ensures { result ≡ length (targets_of self.now) }
    {
        self.parts.targets.len() as u32
    }

    /// The number of the class of a start, below the number of classes; `None` exactly where it is none. Starts are in one
    /// class exactly where they have one target.
    pub fn class(&self, start: StateId) -> Option<u32>
        ensures none { IfNone result (target self.now start ≡ None) }
        ensures class { IfSome result (λ k. (k < length (targets_of self.now))
            × (slice_get (targets_of self.now) k ≡ target self.now start)) }
    {
        class_in(
            &self.parts.starts,
            &self.parts.classes,
            &self.parts.targets,
            start,
        )
    }

    /// The target of a class.
    pub fn class_target(&self, class: u32) -> StateId
        requires { class < length (targets_of self.now) }
        ensures { slice_get (targets_of self.now) class ≡ Some result }
    {
        self.parts.targets[class as usize]
    }

    /// In what the targets agree on a token, those that err left aside.
    pub fn agree(&self, t: &Tables, token: TokenId) -> Agree
        requires within { AreWithin t.now.states self.now }
        ensures { Agrees t.now token self.now result }
    {
        agreement(t, &self.parts.targets, token)
    }

    /// The same map once more; its lists are shared.
    pub fn copy(&self) -> Result<Arrow, NoMemory>
        ensures { IfOk result (λ arrow. arrow ≡ self.now) }
    {
        Ok(Arrow {
            parts: Arc::try_clone(&self.parts)?,
        })
    }

    /// The map that has these lists.
    fn of_parts(alloc: Global, parts: Parts) -> Result<Arrow, NoMemory>
        requires { IsArrow (arc_value parts.starts).items parts.classes.items parts.targets.items }
        ensures { IfOk result (λ arrow. arrow ≡ pairs_of (arc_value parts.starts).items parts.classes.items parts.targets.items) }
    {
        Ok(Arrow {
            parts: Arc::new(alloc, parts)?,
        })
    }

    /// The map of pairs that were put one after another, whose starts rise.
    pub(crate) fn built(alloc: Global, building: Building) -> Result<Arrow, NoMemory>
        requires classed { AreClassed building.starts.items building.classes.items building.targets.keys }
        requires rising { IsRising (pairs_of building.starts.items building.classes.items building.targets.keys) }
        requires few { length building.starts.items ≤ MOST_STATES }
        ensures { IfOk result (λ arrow. arrow
            ≡ pairs_of building.starts.items building.classes.items building.targets.keys) }
    {
        let Building {
            mut starts,
            mut classes,
            targets: numbers,
        } = building;
        starts.shrink_to_fit();
        classes.shrink_to_fit();
        let targets = states_of(alloc, numbers.as_slice())?;
        let starts = Arc::new(alloc, starts)?;
        Arrow::of_parts(
            alloc,
            Parts {
                starts,
                classes,
                targets,
            },
        )
    }

    /// The same, where the starts are those of this map, whose list is shared.
    fn with_pairs(&self, alloc: Global, building: Building) -> Result<Arrow, NoMemory>
        requires classed { AreClassed building.starts.items building.classes.items building.targets.keys }
        requires rising { IsRising (pairs_of building.starts.items building.classes.items building.targets.keys) }
        requires starts { building.starts.items ≡ map (λ pair. pair.0) self.now }
        ensures { IfOk result (λ arrow. arrow
            ≡ pairs_of building.starts.items building.classes.items building.targets.keys) }
    {
        let targets = states_of(alloc, building.targets.as_slice())?;
        let starts = Arc::try_clone(&self.parts.starts)?;
        let classes = building.classes;
        Arrow::of_parts(
            alloc,
            Parts {
                starts,
                classes,
                targets,
            },
        )
    }

    /// The map of what a function makes of the targets, by the list of its values at the target of each class.
    pub fn along(&self, alloc: Global, images: &[Option<StateId>]) -> Result<Arrow, NoMemory>
        requires { length images.now ≡ length (targets_of self.now) }
        ensures { IfOk result (λ arrow. (f : ℕ → Option ℕ) → images.now ≡ map f (targets_of self.now)
            → arrow ≡ followed (λ q p. f p) self.now) }
    {
        let building = spread(alloc, &self.parts.starts, &self.parts.classes, images)?;
        if building.starts.len() == self.parts.starts.len() {
            return self.with_pairs(alloc, building);
        }
        Arrow::built(alloc, building)
    }

    /// Each target followed along a symbol; a start is left out exactly where there is no step.
    pub fn then_symbol(&self, alloc: Global, t: &Tables, symbol: Sym) -> Result<Arrow, NoMemory>
        requires within { AreWithin t.now.states self.now }
        requires symbol { HasSymbol t.now symbol }
        ensures then { IfOk result (IsThenSymbol t.now symbol self.now) }
        ensures within { IfOk result (AreWithin t.now.states) }
    {
        t.holds();
        let images = after_symbol(alloc, t, &self.parts.targets, &symbol)?;
        self.along(alloc, &images)
    }

    /// Each state from which the symbols lead to a start of the map, to that start.
    pub fn back(&self, alloc: Global, t: &Tables, symbols: &[Sym]) -> Result<Arrow, NoMemory>
        requires within { AreWithin t.now.states self.now }
        requires symbols { All (HasSymbol t.now) symbols.now }
        ensures back { IfOk result (IsBack t.now symbols.now self.now) }
        ensures within { IfOk result (AreWithin t.now.states) }
    {
        starts_before(alloc, t, symbols, self)
    }

    /// Each start, to itself.
    pub fn identity(&self, alloc: Global) -> Result<Arrow, NoMemory>
        ensures identity { IfOk result (IsIdentityOf self.now) }
        ensures within { (n : ℕ) → AreWithin n self.now → IfOk result (AreWithin n) }
    {
        self.holds();
        let building = to_themselves(alloc, self)?;
        self.with_pairs(alloc, building)
    }

    /// The pairs whose start is a start of another map.
    pub fn restrict(&self, alloc: Global, keep: &Arrow) -> Result<Arrow, NoMemory>
        ensures restricted { IfOk result (IsRestricted self.now keep.now) }
        ensures within { (n : ℕ) → AreWithin n self.now → IfOk result (AreWithin n) }
    {
        self.holds();
        let building = kept(alloc, self, keep)?;
        Arrow::built(alloc, building)
    }

    /// The starts whose target is a start of another map, to its target there.
    pub fn compose(&self, alloc: Global, next: &Arrow) -> Result<Arrow, NoMemory>
        ensures composed { IfOk result (IsComposed self.now next.now) }
        ensures within { (n : ℕ) → AreWithin n self.now → AreWithin n next.now → IfOk result (AreWithin n) }
    {
        let images = through(alloc, &self.parts.targets, next)?;
        self.along(alloc, &images)
    }

    /// The pairs whose target has another action than an error on the token.
    pub fn alive(&self, alloc: Global, t: &Tables, token: TokenId) -> Result<Arrow, NoMemory>
        requires within { AreWithin t.now.states self.now }
        ensures alive { IfOk result (AreAlive t.now token self.now) }
        ensures within { IfOk result (AreWithin t.now.states) }
    {
        let images = alive_on(alloc, t, &self.parts.targets, token)?;
        self.along(alloc, &images)
    }
}

/// The states of these numbers.
fn states_of(alloc: Global, numbers: &[u32]) -> Result<Vec<StateId>, NoMemory>
    ensures { IfOk result (λ states. states.items ≡ numbers.now) }
{
    let mut states = Vec::with_capacity(alloc, numbers.len())?;
    for number in numbers {
        states.push(StateId(*number))?;
    }
    Ok(states)
}
