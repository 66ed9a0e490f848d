// Why a client waits: a call that only reads the cluster.
ghost use Rattle.std.specs.Prelude.{◌≡◌};
ghost use Rattle.model.specs.States.{client_of};
ghost use Rattle.model.specs.Refusals.{first};
ghost use Rattle.model.specs.Reasons.{reason_tests, reason_unless, reason};

use formed::is_well_formed;
use lock_calls::client_in_range;
use model::{Cluster, LOCKS, LockId, LockState, MachineId, ReasonAnswer, Refusal, TaskId};
use reasons::reason_in;

#[tactic(auto, unfolding(model::specs::Refusals::first, model::specs::Reasons::reason_unless))]
fn reason_on(s: &LockState, k: MachineId, t: TaskId) -> ReasonAnswer
    ensures { result ≡ reason_unless (first (reason_tests k t)) s.now (client_of k t) }
{
    let c = client_in_range(k, t)?;
    reason_in(s, c)
}

#[tactic(auto, unfolding(model::specs::Reasons::reason, model::specs::Reasons::reason_unless, model::specs::Refusals::first))]
pub fn reason(x: Cluster, lock: LockId, machine: MachineId, task: TaskId) -> ReasonAnswer
    ensures { result ≡ reason x lock machine task }
{
    if !is_well_formed(&x) {
        return Err(Refusal::Malformed);
    }
    if LOCKS as u8 <= lock.0 {
        return Err(Refusal::LockRange);
    }
    reason_on(&x.locks[lock.0 as usize], machine, task)
}
