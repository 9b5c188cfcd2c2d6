//! Rows of events of a core, each with what it answers, and a whole run of the greatest core.

use join_core::{Above, Arrival, Call, Core, LEAVES, parent, run_calls};
use lr_base::NoMemory;
use std::alloc::Global;
use std::test::Fail;

/// What is asked of a core, with what has to come.
#[derive(Clone, Copy)]
enum Step {
    /// A claim, and the leaf.
    Claims(Option<u32>),
    /// A range that is carried, and the boundary and the side on which it stands.
    Stands(u32, u32, u32, bool),
    /// A range, and whether it is carried.
    Carries(u32, u32, bool),
    /// The arrival of a range that is carried.
    Arrives(u32, u32, Arrival),
    /// The end, where the range of all leaves is carried.
    Finishes,
}

/// A core and its events.
struct EventRow {
    name: &'static str,
    leaves: u32,
    steps: &'static [Step],
    is_done: bool,
}

static ROWS: [EventRow; 4] = [
    EventRow {
        name: "three leaves, the last of which comes first",
        leaves: 3,
        steps: &[
            Step::Claims(Some(0)),
            Step::Claims(Some(1)),
            Step::Claims(Some(2)),
            Step::Claims(None),
            Step::Stands(0, 1, 1, true),
            Step::Stands(1, 2, 2, true),
            Step::Stands(2, 3, 2, false),
            Step::Arrives(2, 3, Arrival::First),
            Step::Arrives(0, 1, Arrival::First),
            Step::Arrives(1, 2, Arrival::Second(2, 3)),
            Step::Stands(1, 3, 1, false),
            Step::Arrives(1, 3, Arrival::Second(0, 1)),
            Step::Finishes,
            Step::Carries(0, 3, false),
            Step::Claims(None),
        ],
        is_done: true,
    },
    EventRow {
        name: "two leaves, one of which stays carried",
        leaves: 2,
        steps: &[
            Step::Claims(Some(0)),
            Step::Claims(Some(1)),
            Step::Arrives(0, 1, Arrival::First),
            Step::Carries(0, 1, false),
            Step::Carries(1, 2, true),
            Step::Carries(0, 2, false),
        ],
        is_done: false,
    },
    EventRow {
        name: "one leaf, which is all leaves from its claim on",
        leaves: 1,
        steps: &[
            Step::Carries(0, 1, false),
            Step::Claims(Some(0)),
            Step::Carries(0, 1, true),
            Step::Finishes,
            Step::Claims(None),
        ],
        is_done: true,
    },
    EventRow {
        name: "five leaves, joined as they come",
        leaves: 5,
        steps: &[
            Step::Claims(Some(0)),
            Step::Stands(0, 1, 1, true),
            Step::Arrives(0, 1, Arrival::First),
            Step::Claims(Some(1)),
            Step::Arrives(1, 2, Arrival::Second(0, 1)),
            Step::Stands(0, 2, 2, true),
            Step::Claims(Some(2)),
            Step::Arrives(2, 3, Arrival::First),
            Step::Claims(Some(3)),
            Step::Arrives(3, 4, Arrival::First),
            Step::Arrives(0, 2, Arrival::First),
            Step::Claims(Some(4)),
            Step::Stands(4, 5, 4, false),
            Step::Arrives(4, 5, Arrival::Second(3, 4)),
            Step::Stands(3, 5, 3, false),
            Step::Arrives(3, 5, Arrival::Second(2, 3)),
            Step::Arrives(2, 5, Arrival::Second(0, 2)),
            Step::Finishes,
        ],
        is_done: true,
    },
];

/// Where a carried range stands; `None` for another range, and for that of all leaves.
fn above_of(core: &Core, first: u32, last: u32) -> Option<Above> {
    let leaves = core.leaves();
    if first == 0 && last == leaves {
        return None;
    }
    if !core.carries(first, last) {
        return None;
    }
    Some(parent(first, last, leaves))
}

/// The arrival of a carried range; `None` for another range, and for that of all leaves.
fn arrival_of(core: &mut Core, first: u32, last: u32) -> Option<Arrival> {
    if first == 0 && last == core.leaves() {
        return None;
    }
    if !core.carries(first, last) {
        return None;
    }
    Some(core.arrive(first, last))
}

/// Finishes, and whether the range of all leaves was carried.
fn finishes(core: &mut Core) -> bool {
    let leaves = core.leaves();
    if !core.carries(0, leaves) {
        return false;
    }
    core.finish();
    true
}

/// Whether what has to come comes.
fn comes(core: &mut Core, step: Step) -> bool {
    match step {
        Step::Claims(leaf) => core.claim() == leaf,
        Step::Stands(first, last, boundary, is_left) => {
            above_of(core, first, last) == Some(Above { boundary, is_left })
        }
        Step::Carries(first, last, is_carried) => core.carries(first, last) == is_carried,
        Step::Arrives(first, last, arrival) => arrival_of(core, first, last) == Some(arrival),
        Step::Finishes => finishes(core),
    }
}

/// The number of the first step that doesn't come as stated, or that of all steps.
fn steps_that_come(core: &mut Core, steps: &[Step]) -> usize {
    for (at, step) in steps.iter().enumerate() {
        if !comes(core, *step) {
            return at;
        }
    }
    steps.len()
}

#[test]
fn events_answer_as_stated(rt: HostRuntime) -> Result<(), Fail> {
    for row in &ROWS {
        let mut core = Core::start(rt.alloc(), row.leaves)?;
        let count = steps_that_come(&mut core, row.steps);
        assert_eq!(rt; count, row.steps.len(), "{}", row.name);
        assert_eq!(rt; core.is_done(), row.is_done, "{}", row.name);
    }
    Ok(())
}

/// Calls from a start; how many of them are made, and whether the end was reached.
struct CallRow {
    name: &'static str,
    leaves: u32,
    calls: &'static [Call],
    made: usize,
    is_done: bool,
}

static CALLS: [CallRow; 4] = [
    CallRow {
        name: "three leaves, joined by two that wait for nobody",
        leaves: 3,
        calls: &[
            Call::Claim,
            Call::Claim,
            Call::Claim,
            Call::Claim,
            Call::Arrive(2, 3),
            Call::Arrive(0, 1),
            Call::Arrive(1, 2),
            Call::Arrive(1, 3),
            Call::Finish,
        ],
        made: 9,
        is_done: true,
    },
    CallRow {
        name: "the end, while a leaf is carried still",
        leaves: 2,
        calls: &[
            Call::Claim,
            Call::Claim,
            Call::Arrive(0, 1),
            Call::Finish,
            Call::Claim,
        ],
        made: 3,
        is_done: false,
    },
    CallRow {
        name: "the arrival of a range that waits",
        leaves: 2,
        calls: &[Call::Claim, Call::Arrive(0, 1), Call::Arrive(0, 1)],
        made: 2,
        is_done: false,
    },
    CallRow {
        name: "the arrival of all leaves",
        leaves: 1,
        calls: &[Call::Claim, Call::Arrive(0, 1), Call::Finish],
        made: 1,
        is_done: false,
    },
];

#[test]
fn calls_are_made_up_to_the_first_that_may_not_be(rt: HostRuntime) -> Result<(), Fail> {
    for row in &CALLS {
        let ran = run_calls(rt.alloc(), row.leaves, row.calls)?;
        assert_eq!(rt; ran.made, row.made, "{}", row.name);
        assert_eq!(rt; ran.core.is_done(), row.is_done, "{}", row.name);
    }
    Ok(())
}

/// How often a leaf that was claimed, and the ranges that it is joined into, come second.
fn joins_from(core: &mut Core, leaf: u32) -> u32 {
    let mut first = leaf;
    let mut last = leaf.saturating_add(1);
    for joins in 0..13 {
        let Some(Arrival::Second(from, upto)) = arrival_of(core, first, last) else {
            return joins;
        };
        first = first.min(from);
        last = last.max(upto);
    }
    13
}

#[test]
fn the_greatest_core_joins_each_boundary_once(rt: HostRuntime) -> Result<(), Fail> {
    let mut core = Core::start(rt.alloc(), LEAVES)?;
    let mut joins: u32 = 0;
    for leaf in 0..LEAVES {
        assert_eq!(rt; core.claim(), Some(leaf));
        joins = joins.saturating_add(joins_from(&mut core, leaf));
    }
    assert_eq!(rt; joins, 4_095);
    assert_eq!(rt; core.claim(), None);
    let is_whole = finishes(&mut core);
    assert!(rt; is_whole && core.is_done());
    Ok(())
}
