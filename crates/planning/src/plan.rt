// Rules only say what a step does. The state is written here alone, so that it is copied for an accepted step, not for each rule on the way or for a refusal.
ghost use Rattle.std.specs.Prelude.{◌≡◌, [], ◌∷◌, ◌++◌, map, ◌+◌, ◌<◌, ◌≤◌, length, IfSome};
ghost use Rattle.model.specs.States.{wire_capacity, waiters, wire_of, packets};
ghost use Rattle.model.specs.Changes.{finish, telling};
ghost use Rattle.model.specs.AtMachine.{grant_of};
ghost use Rattle.laws.specs.Shapes.{CanonicalWire};
ghost use Rattle.rules.specs.Effects.{sent_by, verdict_of};
ghost use Rattle.planning.specs.Plans.{left_by, carried_out, Plans};

use model::{
    Address, ClientId, Handling, LockState, MachineId, Message, Mode, Packet, QUEUE_CAPACITY,
    Queue, Refusal, WIRE_CAPACITY, Wire,
};
use parts::blank::plain_packet;
use parts::state::{put_agent, put_client};
use parts::used::used;
use parts::wire::remove;
use rules::effect::{Effect, Sends};

// The packet goes to the wire's end.
#[tactic(auto, using(crate::specs::Sending::sent_whole, crate::specs::Sending::sent_last))]
fn send(w: &mut Wire, p: Packet)
    requires { (CanonicalWire w.old) × (w.old.len < wire_capacity) }
    ensures whole { CanonicalWire w.new }
    ensures longer { w.new.len ≡ w.old.len + 1 }
    ensures sent { packets w.new ≡ packets w.old ++ p ∷ [] }
{
    let n = w.len as usize;
    w.slots[n] = p;
    w.len += 1;
}

// A GRANT for each waiter of the queue.
fn post_grants(w: &mut Wire, q: Queue)
    requires { (CanonicalWire w.old) × (w.old.len + length (waiters q) ≤ wire_capacity) }
    ensures whole { CanonicalWire w.new }
    ensures sent { packets w.new ≡ packets w.old ++ map grant_of (waiters q) }
{
    for waiter in &q.slots[..used(q.len, QUEUE_CAPACITY)] {
        let grant = Message::Grant {
            client: waiter.client,
            mode: Mode::Shared,
        };
        send(w, plain_packet(grant, Address::Decider));
    }
}

// The packets go to the wire's end.
fn post(w: &mut Wire, sends: Sends)
    requires { (CanonicalWire w.old) × (w.old.len + length (sent_by sends) ≤ wire_capacity) }
    ensures whole { CanonicalWire w.new }
    ensures sent { packets w.new ≡ packets w.old ++ sent_by sends }
{
    match sends {
        Sends::Nothing => {}
        Sends::One(p) => send(w, p),
        Sends::Two(p, q) => {
            send(w, p);
            send(w, q);
        }
        Sends::Grants(q) => post_grants(w, q),
    }
}

// A step that is accepted, before it is made: the handling that it tells, the index of the packet taken off the wire, if one is, the machine and the client
// concerned, and the effect.
#[derive(Clone, Copy, Drop)]
pub struct Plan {
    pub handling: Option<Handling>,
    pub(crate) index: Option<u8>,
    pub(crate) machine: MachineId,
    pub(crate) client: ClientId,
    pub(crate) effect: Effect,
}

// How many packets stay on the wire.
#[tactic(auto, using(laws::specs::Shapes::length_packets, parts::specs::Writes::sized_less))]
fn staying(w: &Wire, index: Option<u8>) -> usize
    requires { (CanonicalWire w.now) × IfSome index (λ i. i < w.now.len) }
    ensures few { result ≤ wire_capacity }
    ensures all { result ≡ length (left_by index w.now) }
{
    match index {
        None => w.len as usize,
        Some(_) => w.len as usize - 1,
    }
}

// Refusals 9 and 10. An accepted step tells the handling.
#[tactic(auto, using(crate::specs::Plans::plans_full, crate::specs::Plans::plans_effect), unfolding(model::specs::Changes::finish))]
pub(crate) fn plan_effect(
    s: &LockState,
    machine: MachineId,
    client: ClientId,
    effect: Option<Effect>,
    handling: Option<Handling>,
    index: Option<u8>,
) -> Result<Plan, Refusal>
    requires { (CanonicalWire s.now.wire) × IfSome index (λ i. i < s.now.wire.len) }
    ensures { Plans result s.now
        (telling handling (finish machine client (verdict_of effect) (left_by index s.now.wire) s.now)) }
{
    let effect = effect.ok_or(Refusal::CannotPlace)?;
    if staying(&s.wire, index) + effect.sends.count() > WIRE_CAPACITY {
        return Err(Refusal::WireFull);
    }
    Ok(Plan {
        handling,
        index,
        machine,
        client,
        effect,
    })
}

// The packet at the index goes off the wire.
#[tactic(auto, using(laws::specs::Shapes::wire_whole))]
fn take(w: &mut Wire, index: Option<u8>)
    requires { CanonicalWire w.old }
    ensures { w.new ≡ wire_of (left_by index w.old) }
{
    if let Some(i) = index {
        remove(w, i);
    }
}

// An accepted step is made on the state where it stands.
pub fn apply(p: &Plan, s: &mut LockState)
    requires { (CanonicalWire s.old.wire)
        × (length (left_by p.now.index s.old.wire) + length (sent_by p.now.effect.sends) ≤ wire_capacity) }
    ensures { s.new ≡ carried_out p.now s.old }
{
    let site = &p.effect.site;
    take(&mut s.wire, p.index);
    post(&mut s.wire, p.effect.sends);
    s.decider = site.decider;
    s.agents = put_agent(s.agents, p.machine, site.slot);
    s.clients = put_client(s.clients, p.client, site.status, site.lost);
}

// The state that an accepted step leaves.
pub fn carry_out(p: &Plan, s: &LockState) -> LockState
    requires { (CanonicalWire s.now.wire)
        × (length (left_by p.now.index s.now.wire) + length (sent_by p.now.effect.sends) ≤ wire_capacity) }
    ensures { result ≡ carried_out p.now s.now }
{
    let mut t = *s;
    apply(p, &mut t);
    t
}
