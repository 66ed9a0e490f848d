// The digest of docs/random-runs.md: 'Numbers and digest' and 'The bytes of a cluster'. Each function goes on from h over the bytes of its part.
#![tactic(auto)]

ghost use Rattle.std.specs.Prelude.{◌≡◌, List, ℕ, [], ◌∷◌, take};
ghost use Rattle.model.specs.Names.{Because};
ghost use Rattle.model.specs.Reasons.{reason_number, reason_values};
ghost use Rattle.model.specs.History.{message_numbers};
ghost use Rattle.digest.specs.Bytes.{digest_of, each, flag_bytes, owner_bytes, decider_bytes, waiter_bytes, queue_bytes, agent_bytes, slot_bytes};
ghost use Rattle.digest.specs.Bytes.{status_number, client_bytes, address_bytes, packet_bytes, wire_bytes, lock_bytes, cluster_bytes};
ghost use Rattle.digest.specs.Bytes.{handling_number, found_bytes};

use model::{
    Address, Agent, AgentSlot, ClientState, Cluster, Decider, Handling, LockState, Message, Mode,
    Numbered, Owner, Packet, Queue, Reason, ReasonAnswer, Status, Waiter, Wire,
};
use parts::used::used;

// A value that has bytes, and how a digest goes on over them.
trait Digest {
    ghost bytes: { Self → List ℕ };

    fn digest(&self, h: u32) -> u32
        ensures { result ≡ digest_of h (bytes self.now) };
}

// ---- bytes, flags, and rows of them
impl Digest for u8 {
    ghost bytes = { λ b. b ∷ [] };

    #[tactic(auto, unfolding(crate::specs::Bytes::digest_of))]
    fn digest(&self, h: u32) -> u32 {
        ((h as u64 * 65599 + *self as u64 + 1) % 4294967291) as u32
    }
}

impl Digest for bool {
    ghost bytes = { flag_bytes };

    fn digest(&self, h: u32) -> u32 {
        u8::from(*self).digest(h)
    }
}

// One after the other.
fn all<T: Digest>(xs: &[T], h: u32) -> u32
    ensures { result ≡ digest_of h (each T.bytes xs.now) }
{
    xs.iter().fold(h, |g, x| x.digest(g))
}

// A length, whatever it claims, and the slots that it counts.
#[tactic(auto, using(crate::specs::Parts::parts, std::proofs::lemmas::List::take_min))]
fn counted<T: Digest>(len: u8, slots: &[T], h: u32) -> u32
    ensures { result ≡ digest_of h (len ∷ each T.bytes (take len slots.now)) }
{
    let h = len.digest(h);
    all(&slots[..used(len, slots.len())], h)
}

impl<T: Digest, const N: usize> Digest for [T; N] {
    ghost bytes = { each T.bytes };

    fn digest(&self, h: u32) -> u32 {
        all(self, h)
    }
}

// ---- item 1
impl Digest for Owner {
    ghost bytes = { owner_bytes };

    #[tactic(auto, unfolding(crate::specs::Bytes::each))]
    fn digest(&self, h: u32) -> u32 {
        match *self {
            Owner::Free => [0, 0].digest(h),
            Owner::Owned(m, k) => [m.number(), k.0].digest(h),
        }
    }
}

impl Digest for Decider {
    ghost bytes = { decider_bytes };

    #[tactic(auto, using(crate::specs::Parts::parts), unfolding(crate::specs::Bytes::each, crate::specs::Bytes::decider_bytes))]
    fn digest(&self, h: u32) -> u32 {
        let h = self.owner.digest(h);
        [self.incarnation, u8::from(self.writer)].digest(h)
    }
}

// ---- item 2
impl Digest for Waiter {
    ghost bytes = { waiter_bytes };

    #[tactic(auto, unfolding(crate::specs::Bytes::each, crate::specs::Bytes::waiter_bytes))]
    fn digest(&self, h: u32) -> u32 {
        [self.client.0, self.mode.number()].digest(h)
    }
}

impl Digest for Queue {
    ghost bytes = { queue_bytes };

    #[tactic(auto, unfolding(crate::specs::Bytes::queue_bytes, model::specs::States::waiters))]
    fn digest(&self, h: u32) -> u32 {
        counted(self.len, &self.slots, h)
    }
}

impl Digest for Agent {
    ghost bytes = { agent_bytes };

    #[tactic(auto, using(crate::specs::Parts::parts), unfolding(crate::specs::Bytes::each, crate::specs::Bytes::agent_bytes))]
    fn digest(&self, h: u32) -> u32 {
        let h = [self.mode.number(), self.incarnation].digest(h);
        let h = self.holders.digest(h);
        self.queue.digest(h)
    }
}

impl Digest for AgentSlot {
    ghost bytes = { slot_bytes };

    #[tactic(auto, using(crate::specs::Parts::parts), unfolding(crate::specs::Bytes::slot_bytes))]
    fn digest(&self, h: u32) -> u32 {
        let h = self.present.digest(h);
        if self.present {
            self.agent.digest(h)
        } else {
            h
        }
    }
}

// ---- item 3
fn status_number(s: Status) -> u8
    ensures { result ≡ status_number s }
{
    match s {
        Status::Idle => 0,
        Status::Waiting(m) => m.number(),
        Status::Holding(Mode::Exclusive) => 6,
        Status::Holding(Mode::Shared) => 7,
    }
}

impl Digest for ClientState {
    ghost bytes = { client_bytes };

    #[tactic(auto, unfolding(crate::specs::Bytes::each, crate::specs::Bytes::client_bytes))]
    fn digest(&self, h: u32) -> u32 {
        [status_number(self.status), u8::from(self.lost)].digest(h)
    }
}

// ---- item 4
impl Digest for Message {
    ghost bytes = { message_numbers };

    #[tactic(auto, unfolding(crate::specs::Bytes::each))]
    fn digest(&self, h: u32) -> u32 {
        match *self {
            Message::Acquire {
                client,
                mode,
                granted,
            } => [1, client.0, mode.number(), u8::from(granted)].digest(h),
            Message::Grant { client, mode } => [2, client.0, mode.number(), 0].digest(h),
            Message::Release { client } => [3, client.0, 0, 0].digest(h),
            Message::Free => [4, 0, 0, 0].digest(h),
        }
    }
}

impl Digest for Address {
    ghost bytes = { address_bytes };

    #[tactic(auto, unfolding(crate::specs::Bytes::each))]
    fn digest(&self, h: u32) -> u32 {
        match *self {
            Address::Decider => [0, 0].digest(h),
            Address::Machine(k) => [1, k.0].digest(h),
        }
    }
}

impl Digest for Packet {
    ghost bytes = { packet_bytes };

    #[tactic(auto, using(crate::specs::Parts::parts), unfolding(crate::specs::Bytes::each, crate::specs::Bytes::packet_bytes))]
    fn digest(&self, h: u32) -> u32 {
        let h = self.message.digest(h);
        let h = self.to.digest(h);
        let h = [u8::from(self.rejected), self.circled].digest(h);
        self.carried.digest(h)
    }
}

impl Digest for Wire {
    ghost bytes = { wire_bytes };

    #[tactic(auto, unfolding(crate::specs::Bytes::wire_bytes, model::specs::States::packets))]
    fn digest(&self, h: u32) -> u32 {
        counted(self.len, &self.slots, h)
    }
}

// ---- a lock and the cluster
impl Digest for LockState {
    ghost bytes = { lock_bytes };

    #[tactic(auto, using(crate::specs::Parts::parts), unfolding(crate::specs::Bytes::lock_bytes))]
    fn digest(&self, h: u32) -> u32 {
        let h = self.decider.digest(h);
        let h = self.agents.digest(h);
        let h = self.clients.digest(h);
        self.wire.digest(h)
    }
}

impl Digest for Cluster {
    ghost bytes = { cluster_bytes };

    #[tactic(auto, using(crate::specs::Parts::parts), unfolding(crate::specs::Bytes::cluster_bytes))]
    fn digest(&self, h: u32) -> u32 {
        let h = self.preference.digest(h);
        self.locks.digest(h)
    }
}

pub fn byte(h: u32, b: u8) -> u32
    ensures { result ≡ digest_of h (b ∷ []) }
{
    b.digest(h)
}

pub fn cluster(h: u32, x: Cluster) -> u32
    ensures { result ≡ digest_of h (cluster_bytes x) }
{
    x.digest(h)
}

// ---- what goes into the digest of a step: the answer to the question for a reason
impl Digest for Reason {
    ghost bytes = { λ r. reason_values (Because r) };

    #[tactic(auto, unfolding(crate::specs::Bytes::each))]
    fn digest(&self, h: u32) -> u32 {
        match *self {
            Reason::Requested { index } => [1, index].digest(h),
            Reason::Granted { index } => [2, index].digest(h),
            Reason::Rejected { index } => [3, index].digest(h),
            Reason::Queued { machine, ahead } => [4, machine.0, ahead].digest(h),
            Reason::Carried { index, ahead } => [5, index, ahead].digest(h),
            Reason::GrantLost => 6u8.digest(h),
        }
    }
}

// Its number, and the values of a reason.
#[tactic(auto, using(crate::specs::Parts::parts))]
pub fn reason(h: u32, a: ReasonAnswer) -> u32
    ensures { result ≡ digest_of h (reason_number a ∷ reason_values a) }
{
    match a {
        Ok(r) => r.digest(byte(h, 0)),
        Err(r) => byte(h, r.number()),
    }
}

// ---- and the handling that it tells
fn handling_number(h: Option<Handling>) -> u8
    ensures { result ≡ handling_number h }
{
    match h {
        None => 0,
        Some(Handling::NoAgent) => 1,
        Some(Handling::NotHolder) => 2,
        Some(Handling::Taken) => 3,
    }
}

pub fn handling(h: u32, a: Option<Handling>) -> u32
    ensures { result ≡ digest_of h (handling_number a ∷ []) }
{
    byte(h, handling_number(a))
}

// ---- and what a search of its wire comes to
#[tactic(auto, unfolding(crate::specs::Bytes::each))]
pub fn found(h: u32, f: Option<u8>) -> u32
    ensures { result ≡ digest_of h (found_bytes f) }
{
    match f {
        None => byte(h, 0),
        Some(index) => [1, index].digest(h),
    }
}
