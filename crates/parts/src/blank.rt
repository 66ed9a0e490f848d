// Blank values, and deciders, packets and agents as they are made.
ghost use Rattle.std.specs.Prelude.{◌≡◌, []};
ghost use Rattle.model.specs.States.{blank_waiter, queue_of, new_agent, some_agent, no_agent, plain, carrying, resent, blank_packet, unowned};

use model::{
    Address, Agent, AgentSlot, CLIENTS, ClientId, ClientState, Decider, Message, Mode, Owner,
    Packet, QUEUE_CAPACITY, Queue, Status, Waiter,
};

pub const IDLE: ClientState = ClientState {
    status: Status::Idle,
    lost: false,
};

pub fn blank_waiter() -> Waiter
    ensures { result ≡ blank_waiter }
{
    Waiter {
        client: ClientId(0),
        mode: Mode::Exclusive,
    }
}

#[tactic(auto, unfolding(model::specs::States::queue_of, model::specs::Lists::padded))]
pub fn empty_queue() -> Queue
    ensures { result ≡ queue_of [] }
{
    Queue {
        slots: [blank_waiter(); QUEUE_CAPACITY],
        len: 0,
    }
}

pub fn new_agent(m: Mode) -> Agent
    ensures { result ≡ new_agent m }
{
    Agent {
        mode: m,
        holders: [false; CLIENTS],
        queue: empty_queue(),
        incarnation: 0,
    }
}

pub fn some_agent(a: Agent) -> AgentSlot
    ensures { result ≡ some_agent a }
{
    AgentSlot {
        present: true,
        agent: a,
    }
}

#[tactic(auto, unfolding(model::specs::States::no_agent))]
pub fn no_agent() -> AgentSlot
    ensures { result ≡ no_agent }
{
    AgentSlot {
        present: false,
        agent: new_agent(Mode::Exclusive),
    }
}

pub fn unowned() -> Decider
    ensures { result ≡ unowned }
{
    Decider {
        owner: Owner::Free,
        incarnation: 0,
        writer: false,
    }
}

// ---- packets, made in these three ways only
pub fn plain_packet(m: Message, t: Address) -> Packet
    ensures { result ≡ plain m t }
{
    Packet {
        message: m,
        to: t,
        rejected: false,
        circled: 0,
        carried: no_agent(),
    }
}

// The agent goes inside.
pub fn carrying(m: Message, t: Address, a: Agent) -> Packet
    ensures { result ≡ carrying m t a }
{
    Packet {
        carried: some_agent(a),
        ..plain_packet(m, t)
    }
}

// The same packet again, for another address or with another mark; its count is kept.
pub fn resent(p: Packet, t: Address, b: bool) -> Packet
    ensures { result ≡ resent p t b }
{
    Packet {
        to: t,
        rejected: b,
        ..p
    }
}

#[tactic(auto, unfolding(model::specs::States::blank_packet))]
pub fn blank_packet() -> Packet
    ensures { result ≡ blank_packet }
{
    plain_packet(Message::Free, Address::Decider)
}
