// Well-formedness: the test of refusal 11. Nearly always every test holds, so what is a few bytes long is joined by `&`, and the holders and the waiters of an
// agent by a fold, which has no way out and is compiled to a few wide operations; `all` and `&&` would look at one byte after the other. Between two folds
// stands `&&`: joined by `&`, what they found would be put together bit by bit.
#![tactic(auto)]

ghost use Rattle.std.specs.Prelude.{◌≡◌, ◌&&◌, not, length, eqb};
ghost use Rattle.model.specs.Lists.{all};
ghost use Rattle.model.specs.States.{locks, machines, clients};
ghost use Rattle.model.specs.WellFormed.{client_in_range, owner_in_range, decider_formed, address_in_range, is_blank_waiter, distinct, waiter_in_range};
ghost use Rattle.model.specs.WellFormed.{queue_formed, agent_formed, is_blank_agent, slot_formed, to_decider};
ghost use Rattle.model.specs.WellFormed.{message_formed, circled_formed, packet_formed};
ghost use Rattle.model.specs.WellFormed.{is_blank_packet, wire_formed, client_formed, lock_formed, well_formed};

use model::{
    Address, Agent, AgentSlot, CLIENTS, ClientId, ClientState, Cluster, Decider, LOCKS, LockState,
    MACHINES, Message, Mode, Owner, PREFERENCES, Packet, QUEUE_CAPACITY, Queue, Status,
    WIRE_CAPACITY, Waiter, Wire,
};

// ---- blank slots
#[tactic(auto, unfolding(model::specs::WellFormed::is_blank_waiter))]
fn is_blank_waiter(w: &Waiter) -> bool
    ensures { result ≡ is_blank_waiter w.now }
{
    (w.client.0 == 0) & matches!(w.mode, Mode::Exclusive)
}

fn blank_waiters(a: &[Waiter]) -> bool
    ensures { result ≡ all is_blank_waiter a.now }
{
    a.iter().fold(true, |ok, w| ok & is_blank_waiter(w))
}

fn no_holder(h: &[bool; CLIENTS]) -> bool
    ensures { result ≡ (eqb (length h.now) clients && all not h.now) }
{
    h.iter().fold(true, |ok, held| ok & !*held)
}

#[tactic(auto, unfolding(model::specs::WellFormed::is_blank_agent, model::specs::WellFormed::shaped))]
fn is_blank_agent(a: &Agent) -> bool
    ensures { result ≡ is_blank_agent a.now }
{
    no_holder(&a.holders)
        && blank_waiters(&a.queue.slots)
        && matches!(a.mode, Mode::Exclusive) & (a.queue.len == 0) & (a.incarnation == 0)
}

#[tactic(auto, unfolding(model::specs::WellFormed::is_blank_packet))]
fn is_blank_packet(p: &Packet) -> bool
    ensures { result ≡ is_blank_packet p.now }
{
    matches!(p.message, Message::Free)
        & matches!(p.to, Address::Decider)
        & !p.rejected
        & (p.circled == 0)
        & !p.carried.present
        && is_blank_agent(&p.carried.agent)
}

// ---- a queue and an agent
// One pass, with the set of the clients seen so far.
fn waiters_formed(a: &[Waiter]) -> bool
    ensures { result ≡ (all waiter_in_range a.now && distinct a.now) }
{
    let mut seen = [false; CLIENTS];
    for w in a {
        let i = w.client.0 as usize;
        if CLIENTS <= i || seen[i] {
            return false;
        }
        seen[i] = true;
    }
    true
}

#[tactic(auto, unfolding(model::specs::WellFormed::queue_formed, model::specs::WellFormed::shaped))]
fn queue_formed(q: &Queue) -> bool
    ensures { result ≡ queue_formed q.now }
{
    let n = q.len as usize;
    n <= QUEUE_CAPACITY && blank_waiters(&q.slots[n..]) && waiters_formed(&q.slots[..n])
}

#[tactic(auto, unfolding(model::specs::WellFormed::agent_formed))]
fn agent_formed(a: &Agent) -> bool
    ensures { result ≡ agent_formed a.now }
{
    queue_formed(&a.queue)
}

#[tactic(auto, unfolding(model::specs::WellFormed::slot_formed))]
fn slot_formed(x: &AgentSlot) -> bool
    ensures { result ≡ slot_formed x.now }
{
    if x.present {
        agent_formed(&x.agent)
    } else {
        is_blank_agent(&x.agent)
    }
}

// ---- a packet
fn address_in_range(t: Address) -> bool
    ensures { result ≡ address_in_range t }
{
    match t {
        Address::Decider => true,
        Address::Machine(k) => k.0 < MACHINES as u8,
    }
}

fn to_decider(t: Address) -> bool
    ensures { result ≡ to_decider t }
{
    matches!(t, Address::Decider)
}

// An ACQUIRE or a RELEASE: no agent, never rejected.
fn request_formed(c: ClientId, carries: bool, rejected: bool) -> bool
    ensures { result ≡ (client_in_range c && (not carries && not rejected)) }
{
    c.0 < CLIENTS as u8 && !carries && !rejected
}

#[tactic(auto, unfolding(model::specs::WellFormed::message_formed))]
fn message_formed(m: Message, carries: bool, rejected: bool, t: Address) -> bool
    ensures { result ≡ message_formed m carries rejected t }
{
    match m {
        Message::Free => carries && rejected != to_decider(t),
        Message::Acquire { client, .. } => request_formed(client, carries, rejected),
        Message::Grant { client, .. } => {
            client.0 < CLIENTS as u8 && (!rejected || (carries && !to_decider(t)))
        }
        Message::Release { client } => request_formed(client, carries, rejected),
    }
}

// A GRANT and a FREE do not circle.
fn circled_formed(m: Message, n: u8) -> bool
    ensures { result ≡ circled_formed m n }
{
    matches!(m, Message::Acquire { .. } | Message::Release { .. }) || n == 0
}

#[tactic(auto, unfolding(model::specs::WellFormed::packet_formed))]
fn packet_formed(p: &Packet) -> bool
    ensures { result ≡ packet_formed p.now }
{
    message_formed(p.message, p.carried.present, p.rejected, p.to)
        && circled_formed(p.message, p.circled)
        && address_in_range(p.to)
        && slot_formed(&p.carried)
}

// ---- a wire
fn blank_packets(a: &[Packet]) -> bool
    ensures { result ≡ all is_blank_packet a.now }
{
    a.iter().all(is_blank_packet)
}

fn packets_formed(a: &[Packet]) -> bool
    ensures { result ≡ all packet_formed a.now }
{
    a.iter().all(packet_formed)
}

#[tactic(auto, unfolding(model::specs::WellFormed::wire_formed, model::specs::WellFormed::shaped))]
fn wire_formed(w: &Wire) -> bool
    ensures { result ≡ wire_formed w.now }
{
    let n = w.len as usize;
    n <= WIRE_CAPACITY && blank_packets(&w.slots[n..]) && packets_formed(&w.slots[..n])
}

// ---- a lock and the cluster, which has the preference n
fn owner_in_range(o: Owner) -> bool
    ensures { result ≡ owner_in_range o }
{
    match o {
        Owner::Free => true,
        Owner::Owned(_, k) => k.0 < MACHINES as u8,
    }
}

fn decider_formed(n: u8, d: &Decider) -> bool
    ensures { result ≡ decider_formed n d.now }
{
    owner_in_range(d.owner) && (!d.writer || n == 1)
}

// Only who waits has the note of a lost GRANT.
#[tactic(auto, unfolding(model::specs::WellFormed::client_formed))]
fn client_formed(x: &ClientState) -> bool
    ensures { result ≡ client_formed x.now }
{
    !x.lost || matches!(x.status, Status::Waiting(_))
}

fn slots_formed(a: &[AgentSlot; MACHINES]) -> bool
    ensures { result ≡ (eqb (length a.now) machines && all slot_formed a.now) }
{
    a.iter().all(slot_formed)
}

fn clients_formed(a: &[ClientState; CLIENTS]) -> bool
    ensures { result ≡ (eqb (length a.now) clients && all client_formed a.now) }
{
    a.iter().all(client_formed)
}

#[tactic(auto, unfolding(model::specs::WellFormed::lock_formed))]
fn lock_formed(n: u8, s: &LockState) -> bool
    ensures { result ≡ lock_formed n s.now }
{
    decider_formed(n, &s.decider)
        && slots_formed(&s.agents)
        && clients_formed(&s.clients)
        && wire_formed(&s.wire)
}

fn locks_formed(n: u8, a: &[LockState; LOCKS]) -> bool
    ensures { result ≡ (eqb (length a.now) locks && all (lock_formed n) a.now) }
{
    a.iter().all(|s| lock_formed(n, s))
}

#[tactic(auto, unfolding(model::specs::WellFormed::well_formed))]
pub fn is_well_formed(x: &Cluster) -> bool
    ensures { result ≡ well_formed x.now }
{
    x.preference < PREFERENCES && locks_formed(x.preference, &x.locks)
}

// The same of a cluster that is given. One that is lent is not copied for the test.
pub fn well_formed(x: Cluster) -> bool
    ensures { result ≡ well_formed x }
{
    is_well_formed(&x)
}
