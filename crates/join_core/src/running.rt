ghost use Rattle.std.specs.Prelude.{◌≡◌, ◌↔◌, ◌<◌, ◌≤◌, IfOk, length, take, false, true};
ghost use Rattle.core_theory.specs.Core.{IsCovered};
ghost use Rattle.join_core.specs.Calls.{IsMade, IsMet, RunsCalls, RunsFrom, StopsAt};
ghost use Rattle.join_core.specs.declared.limits.TheConstants.{LEAVES};

use crate::call::Call;
use crate::protocol::Core;
use lr_base::NoMemory;
use std::alloc::Global;

/// What a list of calls leaves: the core, and how many of them were made.
#[derive(Drop)]
pub struct Ran {
    pub core: Core,
    pub made: usize,
}

/// Whether the call may be made.
fn may_make(core: &Core, call: Call) -> bool
    ensures { result ≡ true ↔ IsMet core.now call }
{
    match call {
        Call::Claim => true,
        Call::Arrive(first, last) => {
            let is_all = first == 0 && last == core.leaves();
            !is_all && core.carries(first, last)
        }
        Call::Finish => core.carries(0, core.leaves()),
    }
}

/// Makes the call, which may be made.
fn make(core: &mut Core, call: Call)
    requires { IsMet core.old call }
    ensures made { IsMade core.old call core.new }
    ensures covered { IsCovered core.new }
{
    match call {
        Call::Claim => {
            let _leaf = core.claim();
        }
        Call::Arrive(first, last) => {
            let _arrival = core.arrive(first, last);
        }
        Call::Finish => core.finish(),
    }
}

/// Makes the calls in their order, up to the first that may not be made, and answers how many it made.
fn make_all(core: &mut Core, calls: &[Call]) -> usize
    requires { IsCovered core.old }
    ensures runs { RunsCalls core.old (take result calls.now) core.new }
    ensures stops { StopsAt core.new calls.now result }
    ensures covered { IsCovered core.new }
{
    for (made, call) in calls.iter().enumerate() {
        if !may_make(core, *call) {
            return made;
        }
        make(core, *call);
    }
    calls.len()
}

/// Starts a core of so many leaves, from 1 to 4,096, and makes the calls in their order, up to the first that may not be
/// made. The core that it leaves is in the state to which exactly these calls lead, with the answers that they gave.
pub fn run_calls(alloc: Global, leaves: u32, calls: &[Call]) -> Result<Ran, NoMemory>
    requires some { 0 < leaves }
    requires few { leaves ≤ LEAVES }
    ensures runs { IfOk result (λ ran. RunsFrom leaves (take ran.made calls.now) ran.core) }
    ensures stops { IfOk result (λ ran. StopsAt ran.core calls.now ran.made) }
    ensures covered { IfOk result (λ ran. IsCovered ran.core) }
{
    let mut core = Core::start(alloc, leaves)?;
    let made = make_all(&mut core, calls);
    Ok(Ran { core, made })
}
