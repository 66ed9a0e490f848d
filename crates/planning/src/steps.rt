// The steps on one lock's state, as plans: a rule's effect, or a refusal.
ghost use Rattle.std.specs.Prelude.{◌≡◌, ◌<◌};
ghost use Rattle.model.specs.Lists.{removed};
ghost use Rattle.model.specs.States.{packets, machine_of};
ghost use Rattle.model.specs.Changes.{site_of, finish, telling};
ghost use Rattle.model.specs.Calls.{handled_at, machine_at, client_named, delivers, acquire_step, release_step, deliver_step, give_up_step, lose_step};
ghost use Rattle.laws.specs.Shapes.{CanonicalWire, CanonicalQueue};
ghost use Rattle.laws.specs.Formed.{Ready};
ghost use Rattle.rules.specs.Effects.{verdict_of};
ghost use Rattle.planning.specs.Plans.{Plans};

use crate::plan::{Plan, plan_effect};
use decider::at_decider;
use machine::{at_machine, handling};
use model::{
    Address, AgentSlot, ClientId, Handling, LockState, MachineId, Message, Mode, Packet, Refusal,
    Site,
};
use parts::wire::packet_at;
use rules::asking::acquire;
use rules::effect::Effect;
use rules::leaving::{give_up, lose, machine_of, release};
use rules::site::site_of;

// A client's own call, by what its rule gives. No packet is taken off the wire, and no handling is told.
#[tactic(auto, using(crate::specs::Plans::plans_quiet))]
fn plan_call(s: &LockState, c: ClientId, effect: Option<Effect>) -> Result<Plan, Refusal>
    requires { CanonicalWire s.now.wire }
    ensures { Plans result s.now (finish (machine_of c) c (verdict_of effect) (packets s.now.wire) s.now) }
{
    plan_effect(s, machine_of(c), c, effect, None, None)
}

// n is the cluster's preference.
#[tactic(auto, unfolding(model::specs::Calls::acquire_step))]
pub fn plan_acquire(n: u8, s: &LockState, c: ClientId, m: Mode) -> Result<Plan, Refusal>
    requires { Ready s.now }
    ensures { Plans result s.now (acquire_step n s.now c m) }
{
    let v = site_of(n, s, machine_of(c), c);
    plan_call(s, c, acquire(v, c, m))
}

// A client that holds releases.
#[tactic(auto, unfolding(model::specs::Calls::release_step))]
pub fn plan_release(n: u8, s: &LockState, c: ClientId) -> Result<Plan, Refusal>
    requires { Ready s.now }
    ensures { Plans result s.now (release_step n s.now c) }
{
    let v = site_of(n, s, machine_of(c), c);
    plan_call(s, c, release(v, c))
}

// A client that waits gives up.
#[tactic(auto, unfolding(model::specs::Calls::give_up_step))]
pub fn plan_give_up(n: u8, s: &LockState, c: ClientId) -> Result<Plan, Refusal>
    requires { Ready s.now }
    ensures { Plans result s.now (give_up_step n s.now c) }
{
    let v = site_of(n, s, machine_of(c), c);
    plan_call(s, c, give_up(v, c))
}

// The machine and the client that a packet is about, delivered or lost.
fn machine_at(to: Address) -> MachineId
    ensures { result ≡ machine_at to }
{
    match to {
        Address::Decider => MachineId(0),
        Address::Machine(k) => k,
    }
}

fn client_named(m: Message) -> ClientId
    ensures { result ≡ client_named m }
{
    match m {
        Message::Free => ClientId(0),
        Message::Acquire { client, .. }
        | Message::Grant { client, .. }
        | Message::Release { client } => client,
    }
}

// What a packet's step looks at and may write.
fn site_about(n: u8, s: &LockState, p: Packet) -> Site
    ensures { result ≡ site_of n s.now (machine_at p.to) (client_named p.message) }
{
    site_of(n, s, machine_at(p.to), client_named(p.message))
}

// The packet p is delivered at its address.
#[tactic(auto, unfolding(model::specs::Calls::delivers))]
fn deliver(v: Site, p: Packet) -> Option<Effect>
    requires { (CanonicalQueue v.slot.agent.queue) × (CanonicalQueue p.carried.agent.queue) }
    ensures { verdict_of result ≡ delivers p.to v p }
{
    match p.to {
        Address::Decider => at_decider(v, p),
        Address::Machine(_) => at_machine(v, p),
    }
}

// What the delivery tells: a machine's handling. The decider tells none.
#[tactic(auto, unfolding(model::specs::Calls::handled_at))]
fn handled_at(to: Address, m: Message, x: AgentSlot) -> Option<Handling>
    requires { CanonicalQueue x.agent.queue }
    ensures { result ≡ handled_at to m x }
{
    match to {
        Address::Decider => None,
        Address::Machine(_) => handling(m, x),
    }
}

// A step that takes the packet p off the wire, at the index i, by what its rule gives.
fn plan_packet(
    s: &LockState,
    i: u8,
    p: Packet,
    effect: Option<Effect>,
    told: Option<Handling>,
) -> Result<Plan, Refusal>
    requires { (CanonicalWire s.now.wire) × (i < s.now.wire.len) }
    ensures { Plans result s.now
        (telling told
        (finish (machine_at p.to) (client_named p.message) (verdict_of effect) (removed (packets s.now.wire) i) s.now)) }
{
    let c = client_named(p.message);
    plan_effect(s, machine_at(p.to), c, effect, told, Some(i))
}

#[tactic(auto, unfolding(model::specs::Calls::deliver_step, model::specs::Calls::takes))]
pub fn plan_deliver(n: u8, s: &LockState, i: u8) -> Result<Plan, Refusal>
    requires { (Ready s.now) × (i < s.now.wire.len) }
    ensures { Plans result s.now (deliver_step n s.now i) }
{
    let p = packet_at(&s.wire, i);
    let v = site_about(n, s, p);
    let told = handled_at(p.to, p.message, v.slot);
    plan_packet(s, i, p, deliver(v, p), told)
}

// A packet that can be lost is.
#[tactic(auto, using(crate::specs::Plans::plans_quiet), unfolding(model::specs::Calls::lose_step, model::specs::Calls::drops))]
pub fn plan_lose(n: u8, s: &LockState, i: u8) -> Result<Plan, Refusal>
    requires { (Ready s.now) × (i < s.now.wire.len) }
    ensures { Plans result s.now (lose_step n s.now i) }
{
    let p = packet_at(&s.wire, i);
    plan_packet(s, i, p, lose(site_about(n, s, p)), None)
}
