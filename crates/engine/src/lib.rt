// The calls on a cluster. Each is, for every cluster and all arguments, the call of the model. A call tests the whole cluster once; runs of calls,
// which know that a cluster stays well formed, take the steps on one lock in the crate `lock_calls`.
#![tactic(auto)]

ghost use Rattle.std.specs.Prelude.{◌≡◌, true, ◌<◌};
ghost use Rattle.model.specs.States.{locks};
ghost use Rattle.model.specs.WellFormed.{well_formed};
ghost use Rattle.model.specs.Calls.{acquire, release, deliver, lose, give_up, perform, lock_of};

use formed::is_well_formed;
use lock_calls::{lock_of, plan_call};
use making::refuse_call;
use model::{Call, Cluster, LOCKS, LockId, MachineId, Outcome, Refusal, TaskId};
use planning::plan::carry_out;

mod waiting;

pub use draining::drain;
pub use formed::well_formed;
pub use making::fresh;
pub use waiting::reason;

#[tactic(auto, unfolding(model::specs::Calls::perform))]
pub fn acquire(x: Cluster, lock: LockId, machine: MachineId, task: TaskId, mode: u8) -> Outcome
    ensures { result ≡ acquire x lock machine task mode }
{
    perform(
        Call::Acquire {
            lock,
            machine,
            task,
            mode,
        },
        x,
    )
}

#[tactic(auto, unfolding(model::specs::Calls::perform))]
pub fn release(x: Cluster, lock: LockId, machine: MachineId, task: TaskId) -> Outcome
    ensures { result ≡ release x lock machine task }
{
    perform(
        Call::Release {
            lock,
            machine,
            task,
        },
        x,
    )
}

// Delivers the packet at the index on the lock's wire.
#[tactic(auto, unfolding(model::specs::Calls::perform))]
pub fn deliver(x: Cluster, lock: LockId, index: u8) -> Outcome
    ensures { result ≡ deliver x lock index }
{
    perform(Call::Deliver { lock, index }, x)
}

// Loses the GRANT without agent at the index on the lock's wire.
#[tactic(auto, unfolding(model::specs::Calls::perform))]
pub fn lose(x: Cluster, lock: LockId, index: u8) -> Outcome
    ensures { result ≡ lose x lock index }
{
    perform(Call::Lose { lock, index }, x)
}

// A waiting client asks no longer.
#[tactic(auto, unfolding(model::specs::Calls::perform))]
pub fn give_up(x: Cluster, lock: LockId, machine: MachineId, task: TaskId) -> Outcome
    ensures { result ≡ give_up x lock machine task }
{
    perform(
        Call::GiveUp {
            lock,
            machine,
            task,
        },
        x,
    )
}

// A well-formed cluster, and the call's lock is one of it: the lock's state is written in its place where the call is accepted.
fn perform_on(l: LockId, c: Call, mut x: Cluster) -> Outcome
    requires { (well_formed x ≡ true) × ((l.0 < locks) × (l ≡ lock_of c)) }
    ensures { result ≡ perform c x }
{
    let i = l.0 as usize;
    match plan_call(x.preference, c, &x.locks[i]) {
        Ok(plan) => {
            x.locks[i] = carry_out(&plan, &x.locks[i]);
            Outcome {
                answer: Ok(()),
                handling: plan.handling,
                cluster: x,
            }
        }
        Err(refusal) => refuse_call(refusal, x),
    }
}

#[tactic(auto, using(lock_calls::specs::LockCalls::perform_range, lock_calls::specs::LockCalls::perform_malformed))]
pub fn perform(c: Call, x: Cluster) -> Outcome
    ensures { result ≡ perform c x }
{
    if !is_well_formed(&x) {
        return refuse_call(Refusal::Malformed, x);
    }
    let l = lock_of(c);
    if LOCKS as u8 <= l.0 {
        return refuse_call(Refusal::LockRange, x);
    }
    perform_on(l, c, x)
}
