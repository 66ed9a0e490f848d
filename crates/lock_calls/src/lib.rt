// The calls on one lock's state that is known to be well formed, for runs of calls: the cluster is tested once, and every call keeps it well formed
// (laws/specs/Clusters.antt). What is left of a call are its tests on that state, and its step. `plan_call` gives the answer and what is to be
// written, and writes nothing; `apply` makes an accepted step, `carry_out` on a copy; `lock_of` is the call's lock, whose range the caller tests.
#![tactic(auto)]

ghost use Rattle.std.specs.Prelude.{◌≡◌, true, List, ◌<◌, Err, MatchResult};
ghost use Rattle.model.specs.States.{machines, tasks, client_of};
ghost use Rattle.model.specs.WellFormed.{lock_formed};
ghost use Rattle.model.specs.Refusals.{Cause, first};
ghost use Rattle.model.specs.Calls.{can_be_lost, idle_tests, holding_tests, waiting_tests, lock_of};
ghost use Rattle.laws.specs.Shapes.{CanonicalWire};
ghost use Rattle.planning.specs.Plans.{Plans};
ghost use Rattle.lock_calls.specs.LockCalls.{range_tests, further, acquire_on, release_on, deliver_on, lose_on, give_up_on, call_on};

use model::{
    Address, Answer, Call, ClientId, LockId, LockState, MACHINES, MachineId, Message, Mode, Packet,
    Refusal, Status, TASKS, TaskId,
};
use parts::search::first_naming;
use parts::state::status_at;
use parts::wire::packet_at;
pub use planning::plan::{Plan, apply, carry_out};
use planning::steps::{plan_acquire, plan_deliver, plan_give_up, plan_lose, plan_release};

pub fn client_of(k: MachineId, t: TaskId) -> ClientId
    requires { (k.0 < machines) × (t.0 < tasks) }
    ensures { result ≡ client_of k t }
{
    ClientId(TASKS as u8 * k.0 + t.0)
}

// The client is idle, and no packet names it.
#[tactic(auto, using(laws::specs::Lists::at_any), unfolding(model::specs::Refusals::first))]
fn idle_test(s: &LockState, c: ClientId) -> Answer
    requires { CanonicalWire s.now.wire }
    ensures { result ≡ first (idle_tests s.now c) }
{
    if !matches!(status_at(&s.clients, c), Status::Idle) {
        return Err(Refusal::NotIdle);
    }
    match first_naming(s.wire, c) {
        Some(_) => Err(Refusal::StillNamed),
        None => Ok(()),
    }
}

#[tactic(auto, unfolding(model::specs::Refusals::first))]
fn holding_test(s: &LockState, c: ClientId) -> Answer
    ensures { result ≡ first (holding_tests s.now c) }
{
    match status_at(&s.clients, c) {
        Status::Holding(_) => Ok(()),
        _ => Err(Refusal::NotHolding),
    }
}

#[tactic(auto, unfolding(model::specs::Refusals::first))]
fn waiting_test(s: &LockState, c: ClientId) -> Answer
    ensures { result ≡ first (waiting_tests s.now c) }
{
    match status_at(&s.clients, c) {
        Status::Waiting(_) => Ok(()),
        _ => Err(Refusal::CannotGiveUp),
    }
}

// Machine and task are in range. These tests come first, whatever others follow.
#[tactic(auto, unfolding(model::specs::Refusals::first))]
pub fn range_test(k: MachineId, t: TaskId) -> Answer
    ensures { (cs : List Cause) → first (range_tests k t cs) ≡ further result (first cs) }
{
    if MACHINES as u8 <= k.0 {
        Err(Refusal::MachineRange)
    } else if TASKS as u8 <= t.0 {
        Err(Refusal::TaskRange)
    } else {
        Ok(())
    }
}

// The client, where machine and task are in range.
#[tactic(auto, using(crate::specs::LockCalls::in_range_lem), unfolding(model::specs::Refusals::first))]
pub fn client_in_range(k: MachineId, t: TaskId) -> Result<ClientId, Refusal>
    ensures { (cs : List Cause) → MatchResult result (λ c. (c ≡ client_of k t) × (first (range_tests k t cs) ≡ first cs))
        (λ refusal. first (range_tests k t cs) ≡ Err refusal) }
{
    range_test(k, t)?;
    Ok(client_of(k, t))
}

// A GRANT without agent, on its way to a machine.
#[tactic(auto, unfolding(model::specs::Calls::can_be_lost))]
pub fn can_be_lost(p: Packet) -> bool
    ensures { result ≡ can_be_lost p }
{
    matches!(p.message, Message::Grant { .. })
        && !p.carried.present
        && matches!(p.to, Address::Machine(_))
}

// n is the cluster's preference.
#[tactic(auto, using(crate::specs::LockCalls::in_range_lem, laws::specs::Formed::ready), unfolding(crate::specs::LockCalls::acquire_on, crate::specs::LockCalls::step_unless, model::specs::Refusals::first))]
fn acquire_on(n: u8, s: &LockState, k: MachineId, t: TaskId, m: u8) -> Result<Plan, Refusal>
    requires { lock_formed n s.now ≡ true }
    ensures { Plans result s.now (acquire_on n s.now k t m) }
{
    let c = client_in_range(k, t)?;
    let mode = Mode::try_from(m)?;
    idle_test(s, c)?;
    plan_acquire(n, s, c, mode)
}

#[tactic(auto, using(crate::specs::LockCalls::in_range_lem, laws::specs::Formed::ready), unfolding(crate::specs::LockCalls::release_on, crate::specs::LockCalls::step_unless, model::specs::Refusals::first))]
fn release_on(n: u8, s: &LockState, k: MachineId, t: TaskId) -> Result<Plan, Refusal>
    requires { lock_formed n s.now ≡ true }
    ensures { Plans result s.now (release_on n s.now k t) }
{
    let c = client_in_range(k, t)?;
    holding_test(s, c)?;
    plan_release(n, s, c)
}

#[tactic(auto, using(laws::specs::Formed::ready, laws::specs::Shapes::length_packets), unfolding(crate::specs::LockCalls::deliver_on, crate::specs::LockCalls::step_unless, model::specs::Refusals::first))]
fn deliver_on(n: u8, s: &LockState, i: u8) -> Result<Plan, Refusal>
    requires { lock_formed n s.now ≡ true }
    ensures { Plans result s.now (deliver_on n s.now i) }
{
    if s.wire.len <= i {
        return Err(Refusal::IndexRange);
    }
    plan_deliver(n, s, i)
}

#[tactic(auto, using(laws::specs::Formed::ready, laws::specs::Shapes::length_packets), unfolding(crate::specs::LockCalls::lose_on, crate::specs::LockCalls::step_unless, model::specs::Refusals::first))]
fn lose_on(n: u8, s: &LockState, i: u8) -> Result<Plan, Refusal>
    requires { lock_formed n s.now ≡ true }
    ensures { Plans result s.now (lose_on n s.now i) }
{
    if s.wire.len <= i {
        return Err(Refusal::IndexRange);
    }
    if !can_be_lost(packet_at(&s.wire, i)) {
        return Err(Refusal::CannotLose);
    }
    plan_lose(n, s, i)
}

#[tactic(auto, using(crate::specs::LockCalls::in_range_lem, laws::specs::Formed::ready), unfolding(crate::specs::LockCalls::give_up_on, crate::specs::LockCalls::step_unless, model::specs::Refusals::first))]
fn give_up_on(n: u8, s: &LockState, k: MachineId, t: TaskId) -> Result<Plan, Refusal>
    requires { lock_formed n s.now ≡ true }
    ensures { Plans result s.now (give_up_on n s.now k t) }
{
    let c = client_in_range(k, t)?;
    waiting_test(s, c)?;
    plan_give_up(n, s, c)
}

pub fn lock_of(c: Call) -> LockId
    ensures { result ≡ lock_of c }
{
    match c {
        Call::Acquire { lock, .. }
        | Call::Release { lock, .. }
        | Call::Deliver { lock, .. }
        | Call::Lose { lock, .. }
        | Call::GiveUp { lock, .. } => lock,
    }
}

// The call on the state of its lock, planned.
#[tactic(auto, unfolding(crate::specs::LockCalls::call_on, crate::specs::LockCalls::acquire_on, crate::specs::LockCalls::release_on, crate::specs::LockCalls::deliver_on, crate::specs::LockCalls::lose_on, crate::specs::LockCalls::give_up_on))]
pub fn plan_call(n: u8, c: Call, s: &LockState) -> Result<Plan, Refusal>
    requires { lock_formed n s.now ≡ true }
    ensures { Plans result s.now (call_on n c s.now) }
{
    match c {
        Call::Acquire {
            machine,
            task,
            mode,
            ..
        } => acquire_on(n, s, machine, task, mode),
        Call::Release { machine, task, .. } => release_on(n, s, machine, task),
        Call::Deliver { index, .. } => deliver_on(n, s, index),
        Call::Lose { index, .. } => lose_on(n, s, index),
        Call::GiveUp { machine, task, .. } => give_up_on(n, s, machine, task),
    }
}
