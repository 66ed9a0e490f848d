// Handing back: a holder is removed, and an agent whose holders are gone leaves its machine.
ghost use Rattle.std.specs.Prelude.{◌≡◌};
ghost use Rattle.model.specs.States.{waiters, machine_of};
ghost use Rattle.model.specs.Asking.{hand_over, leaves, lists, client_releases, client_gives_up, grant_is_lost};
ghost use Rattle.laws.specs.Shapes.{CanonicalQueue};
ghost use Rattle.rules.specs.Effects.{verdict_of};

use crate::effect::{Effect, Sends, doing, sending};
use crate::site::{with_note, with_slot, with_status};
use model::{
    Address, Agent, AgentSlot, CLIENTS, ClientId, MachineId, Message, Packet, Site, Status, TASKS,
    Waiter,
};
use parts::blank::{carrying, no_agent, plain_packet, some_agent};
use parts::holders::{any_holder, holds, set_holder};
use parts::state::is_waiting;
use queues::{first, pop};

// The packet in which the agent goes, with the holders hs: a FREE, or a GRANT for the first waiter.
#[tactic(auto, using(crate::specs::Leaving::hands_on, crate::specs::Leaving::frees))]
fn hand_over(mut a: Agent, hs: [bool; CLIENTS]) -> Packet
    requires { CanonicalQueue a.queue }
    ensures { result ≡ hand_over a hs (waiters a.queue) }
{
    a.holders = hs;
    if a.queue.len == 0 {
        return carrying(Message::Free, Address::Decider, a);
    }
    let Waiter { client, mode } = first(a.queue);
    a.queue = pop(a.queue);
    carrying(Message::Grant { client, mode }, Address::Decider, a)
}

// The agent a removes the holder c and leaves if empty.
#[tactic(auto, unfolding(model::specs::Asking::stays_if))]
pub fn leave(v: Site, mut a: Agent, c: ClientId) -> Option<Effect>
    requires { CanonicalQueue a.queue }
    ensures { verdict_of result ≡ leaves v a c }
{
    let others = set_holder(a.holders, c, false);
    if any_holder(others) {
        a.holders = others;
        doing(with_slot(v, some_agent(a)), Sends::Nothing)
    } else {
        sending(with_slot(v, no_agent()), hand_over(a, others))
    }
}

// An agent is there and lists the client as a holder.
pub fn listed(x: AgentSlot, c: ClientId) -> bool
    ensures { result ≡ lists x c }
{
    x.present && holds(x.agent.holders, c)
}

pub fn machine_of(c: ClientId) -> MachineId
    ensures { result ≡ machine_of c }
{
    MachineId(c.0 / TASKS as u8)
}

// A client that holds releases. Where no agent here lists it, its RELEASE is to find the one that does, as where it gives up.
#[tactic(auto, unfolding(model::specs::Asking::client_releases, model::specs::Asking::client_gives_up))]
pub fn release(v: Site, c: ClientId) -> Option<Effect>
    requires { CanonicalQueue v.slot.agent.queue }
    ensures { verdict_of result ≡ client_releases v c }
{
    if listed(v.slot, c) {
        leave(with_status(v, Status::Idle), v.slot.agent, c)
    } else {
        give_up(v, c)
    }
}

// A client that waits gives up.
#[tactic(auto, unfolding(model::specs::Asking::client_gives_up))]
pub fn give_up(v: Site, c: ClientId) -> Option<Effect>
    ensures { verdict_of result ≡ client_gives_up v c }
{
    let p = plain_packet(Message::Release { client: c }, Address::Decider);
    sending(with_status(v, Status::Idle), p)
}

// A GRANT is lost: its client, if it waits, has a note of that.
#[tactic(auto, unfolding(model::specs::Asking::grant_is_lost))]
pub fn lose(v: Site) -> Option<Effect>
    ensures { verdict_of result ≡ grant_is_lost v }
{
    doing(with_note(v, is_waiting(v.status)), Sends::Nothing)
}
