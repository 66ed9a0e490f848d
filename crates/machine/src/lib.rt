// Deliveries at a machine. v is the site.
#![tactic(auto)]

ghost use Rattle.std.specs.Prelude.{◌≡◌, []};
ghost use Rattle.model.specs.States.{waiters, some_agent};
ghost use Rattle.model.specs.Changes.{with_slot, does};
ghost use Rattle.model.specs.Asking.{with_room};
ghost use Rattle.model.specs.AtMachine.{sent_back, granted_in, installs, requeued, grant_arrives, rejected_grant_arrives, marked, unmarked, acquire_arrives};
ghost use Rattle.model.specs.AtMachine.{queues, unqueuing, release_arrives, free_arrives, at_machine, handles};
ghost use Rattle.laws.specs.Shapes.{CanonicalQueue};
ghost use Rattle.rules.specs.Effects.{verdict_of};
ghost use Rattle.machine.specs.Admits.{Room, leaves_next, admits_one, admission};

use model::{
    Address, Agent, AgentSlot, CLIENTS, ClientId, Handling, Message, Mode, Packet, Queue, Site,
    Status, Waiter,
};
use parts::blank::{empty_queue, plain_packet, resent, some_agent};
use parts::holders::{is_shared, join, set_holder};
use queues::{no_room, push, push_front, queued, taken_off};
use rules::asking::{may_join, queue_last};
use rules::effect::{Effect, Sends, doing, sending};
use rules::leaving::{leave, listed};
use rules::site::{with_slot, with_status};

// An agent is installed, and its queue's waiters are gone through: the holders with those who joined, who stays in the queue, who left it.
#[derive(Clone, Copy, Drop)]
struct Admission {
    pub holders: [bool; CLIENTS],
    pub staying: Queue,
    pub admitted: Queue,
}

impl Admission {
    // The next waiter may leave the queue of an agent with mode m: both are shared, and nobody ahead of it stays.
    fn may_leave(&self, m: Mode, w: Waiter) -> bool
        ensures { result ≡ leaves_next m self.now w }
    {
        self.staying.len == 0 && is_shared(m) && is_shared(w.mode)
    }

    // A waiter that may leave joins the holders; another stays.
    #[tactic(auto, unfolding(crate::specs::Admits::admits_one))]
    fn admit(&mut self, m: Mode, w: Waiter)
        requires { Room self.old 1 }
        ensures { self.new ≡ admits_one m self.old w }
    {
        if self.may_leave(m, w) {
            self.holders = set_holder(self.holders, w.client, true);
            self.admitted = push(self.admitted, w);
        } else {
            self.staying = push(self.staying, w);
        }
    }
}

// The waiters of q, from the holders on.
fn admit_queue(m: Mode, holders: [bool; CLIENTS], q: Queue) -> Admission
    requires { CanonicalQueue q }
    ensures { result ≡ admission m holders (waiters q) }
{
    let mut t = Admission {
        holders,
        staying: empty_queue(),
        admitted: empty_queue(),
    };
    for w in &q.slots[..q.len as usize] {
        t.admit(m, *w);
    }
    t
}

// What a GRANT makes of its client: it holds, unless it gave up.
fn granted_in(m: Mode, st: Status) -> Status
    ensures { result ≡ granted_in m st }
{
    match st {
        Status::Idle => Status::Idle,
        Status::Waiting(_) | Status::Holding(_) => Status::Holding(m),
    }
}

// The agent takes the mode for which it was sent.
#[tactic(auto, using(laws::specs::Shapes::waiters_of), unfolding(model::specs::AtMachine::installs))]
fn install(v: Site, c: ClientId, m: Mode, a: Agent) -> Option<Effect>
    requires { CanonicalQueue a.queue }
    ensures { verdict_of result ≡ installs v c m a }
{
    let Admission {
        holders,
        staying,
        admitted,
    } = admit_queue(m, set_holder(a.holders, c, true), a.queue);
    let b = Agent {
        mode: m,
        holders,
        queue: staying,
        ..a
    };
    let granted = with_status(v, granted_in(m, v.status));
    doing(with_slot(granted, some_agent(b)), Sends::Grants(admitted))
}

// The client goes back to the front of the agent's queue.
#[tactic(auto, using(rules::specs::Room::room_left))]
fn queue_first(v: Site, mut a: Agent, c: ClientId, m: Mode) -> Option<Effect>
    requires { CanonicalQueue a.queue }
    ensures { verdict_of result ≡ with_room a c (does (with_slot v (some_agent (requeued a c m))) []) }
{
    if no_room(a, c) {
        return None;
    }
    a.queue = push_front(a.queue, Waiter { client: c, mode: m });
    doing(with_slot(v, some_agent(a)), Sends::Nothing)
}

// The packet as it goes back to the decider: it has circled once more, and a count goes no further than 255.
fn sent_back(p: Packet) -> Packet
    ensures { result ≡ sent_back p }
{
    Packet {
        circled: p.circled.saturating_add(1),
        ..resent(p, Address::Decider, p.rejected)
    }
}

// x: the agent carried, or none.
#[tactic(auto, unfolding(model::specs::AtMachine::grant_arrives))]
fn grant_arrives(v: Site, x: AgentSlot, c: ClientId, m: Mode) -> Option<Effect>
    requires { CanonicalQueue x.agent.queue }
    ensures { verdict_of result ≡ grant_arrives v.slot.present x.present v x.agent c m }
{
    match (x.present, v.slot.present) {
        (false, _) => doing(with_status(v, granted_in(m, v.status)), Sends::Nothing),
        (true, true) => None,
        (true, false) => install(v, c, m, x.agent),
    }
}

#[tactic(auto, unfolding(model::specs::AtMachine::rejected_grant_arrives))]
fn rejected_grant_arrives(v: Site, a: Agent, c: ClientId, m: Mode) -> Option<Effect>
    requires { CanonicalQueue a.queue }
    ensures { verdict_of result ≡ rejected_grant_arrives v.slot.present v a c m }
{
    if v.slot.present {
        None
    } else {
        queue_first(v, a, c, m)
    }
}

// An ACQUIRE that the decider granted: its mark is counted in the agent's incarnation.
#[tactic(auto, unfolding(model::specs::AtMachine::marked))]
fn marked_arrives(v: Site, c: ClientId) -> Option<Effect>
    ensures { verdict_of result ≡ marked v v.slot.agent c }
{
    let a = v.slot.agent;
    if !is_shared(a.mode) {
        return None;
    }
    let mut b = join(a, c);
    b.incarnation = std::num::wrapping_add_u8(a.incarnation, 1);
    doing(with_slot(v, some_agent(b)), Sends::Nothing)
}

#[tactic(auto, unfolding(model::specs::AtMachine::unmarked))]
fn unmarked_arrives(v: Site, c: ClientId, m: Mode) -> Option<Effect>
    requires { CanonicalQueue v.slot.agent.queue }
    ensures { verdict_of result ≡ unmarked v v.slot.agent c m }
{
    let a = v.slot.agent;
    if may_join(v, m) {
        let x = some_agent(join(a, c));
        let p = plain_packet(Message::Grant { client: c, mode: m }, Address::Decider);
        sending(with_slot(v, x), p)
    } else {
        queue_last(v, a, c, m)
    }
}

#[tactic(auto, unfolding(model::specs::AtMachine::acquire_arrives))]
fn acquire_arrives(v: Site, p: Packet, c: ClientId, m: Mode, granted: bool) -> Option<Effect>
    requires { CanonicalQueue v.slot.agent.queue }
    ensures { verdict_of result ≡ acquire_arrives v.slot.present v v.slot.agent p c m granted }
{
    match (v.slot.present, granted) {
        (false, _) => sending(v, sent_back(p)),
        (true, true) => marked_arrives(v, c),
        (true, false) => unmarked_arrives(v, c, m),
    }
}

#[tactic(auto, unfolding(model::specs::AtMachine::release_arrives))]
fn release_arrives(v: Site, p: Packet, c: ClientId) -> Option<Effect>
    requires { CanonicalQueue v.slot.agent.queue }
    ensures { verdict_of result ≡ release_arrives v p c }
{
    if listed(v.slot, c) {
        leave(v, v.slot.agent, c)
    } else if queues(v.slot, c) {
        unqueue(v, c)
    } else {
        sending(v, sent_back(p))
    }
}

// An agent is there and has the client in its queue.
fn queues(x: AgentSlot, c: ClientId) -> bool
    requires { CanonicalQueue x.agent.queue }
    ensures { result ≡ queues x c }
{
    x.present && queued(x.agent, c)
}

// The client is off the agent's queue.
fn unqueue(v: Site, c: ClientId) -> Option<Effect>
    requires { CanonicalQueue v.slot.agent.queue }
    ensures { verdict_of result ≡ does (with_slot v (some_agent (unqueuing v.slot.agent c))) [] }
{
    let mut a = v.slot.agent;
    a.queue = taken_off(a.queue, c);
    doing(with_slot(v, some_agent(a)), Sends::Nothing)
}

// A rejected FREE: the carried agent x is installed as carried.
#[tactic(auto, unfolding(model::specs::AtMachine::free_arrives))]
fn free_arrives(v: Site, x: AgentSlot) -> Option<Effect>
    ensures { verdict_of result ≡ free_arrives v.slot.present v x }
{
    if v.slot.present {
        None
    } else {
        doing(with_slot(v, x), Sends::Nothing)
    }
}

#[tactic(auto, unfolding(model::specs::AtMachine::arrives, model::specs::AtMachine::at_machine))]
pub fn at_machine(v: Site, p: Packet) -> Option<Effect>
    requires { (CanonicalQueue v.slot.agent.queue) × (CanonicalQueue p.carried.agent.queue) }
    ensures { verdict_of result ≡ at_machine v p }
{
    match p.message {
        Message::Free => free_arrives(v, p.carried),
        Message::Acquire {
            client,
            mode,
            granted,
        } => acquire_arrives(v, p, client, mode, granted),
        Message::Grant { client, mode } if p.rejected => {
            rejected_grant_arrives(v, p.carried.agent, client, mode)
        }
        Message::Grant { client, mode } => grant_arrives(v, p.carried, client, mode),
        Message::Release { client } => release_arrives(v, p, client),
    }
}

// What a machine with this slot makes of a message: why a request comes back. An ACQUIRE is for any agent, a RELEASE for the one that lists its client, or has
// it in its queue; and other messages are no requests.
#[tactic(auto, unfolding(model::specs::AtMachine::handles))]
pub fn handling(m: Message, x: AgentSlot) -> Option<Handling>
    requires { CanonicalQueue x.agent.queue }
    ensures { result ≡ handles m x }
{
    match m {
        Message::Free | Message::Grant { .. } => None,
        Message::Acquire { .. } | Message::Release { .. } if !x.present => Some(Handling::NoAgent),
        Message::Acquire { .. } => Some(Handling::Taken),
        Message::Release { client } if listed(x, client) || queues(x, client) => Some(
            Handling::Taken,
        ),
        Message::Release { .. } => Some(Handling::NotHolder),
    }
}
