ghost use Rattle.std.specs.Prelude.{◌≡◌, ◌≢◌, ◌<◌, None, Some, IfSome, IfNone, length, slice_get, All, AllPairs};
ghost use Rattle.map_theory.specs.Maps.{target};
ghost use Rattle.state_sets.specs.Parts.{IsArrow, pairs_of};

use lr_base::StateId;

/// The place of a state in a rising list, if it is there.
pub fn place_of(states: &[StateId], state: StateId) -> Option<usize>
    requires { AllPairs (λ x y. x < y) states.now }
    ensures found { IfSome result (λ i. slice_get states.now i ≡ Some state) }
    ensures within { IfSome result (λ i. i < length states.now) }
    ensures none { IfNone result (All (λ x. x ≢ state) states.now) }
{
    let mut low = 0;
    let mut high = states.len();
    while low < high {
        let middle = low + (high - low) / 2;
        let found = states[middle];
        if found.0 == state.0 {
            return Some(middle);
        }
        if found.0 < state.0 {
            low = middle + 1;
        } else {
            high = middle;
        }
    }
    None
}

/// The pair at a place.
pub fn pair_in(
    starts: &[StateId],
    classes: &[u32],
    targets: &[StateId],
    i: usize,
) -> (StateId, StateId)
    requires arrow { IsArrow starts.now classes.now targets.now }
    requires within { i < length (pairs_of starts.now classes.now targets.now) }
    ensures { slice_get (pairs_of starts.now classes.now targets.now) i ≡ Some result }
{
    (starts[i], targets[classes[i] as usize])
}

/// The target of a start, if it is one.
pub fn target_in(
    starts: &[StateId],
    classes: &[u32],
    targets: &[StateId],
    start: StateId,
) -> Option<StateId>
    requires { IsArrow starts.now classes.now targets.now }
    ensures { result ≡ target (pairs_of starts.now classes.now targets.now) start }
{
    match place_of(starts, start) {
        None => None,
        Some(i) => Some(targets[classes[i] as usize]),
    }
}

/// The class of a start, if it is one.
pub fn class_in(
    starts: &[StateId],
    classes: &[u32],
    targets: &[StateId],
    start: StateId,
) -> Option<u32>
    requires { IsArrow starts.now classes.now targets.now }
    ensures none { IfNone result (target (pairs_of starts.now classes.now targets.now) start ≡ None) }
    ensures class { IfSome result (λ k. (k < length targets.now)
        × (slice_get targets.now k ≡ target (pairs_of starts.now classes.now targets.now) start)) }
{
    match place_of(starts, start) {
        None => None,
        Some(i) => Some(classes[i]),
    }
}
