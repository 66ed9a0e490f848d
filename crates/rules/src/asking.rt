// A client that is idle asks for the lock in mode m.
ghost use Rattle.std.specs.Prelude.{◌≡◌, true, false, []};
ghost use Rattle.model.specs.States.{some_agent};
ghost use Rattle.model.specs.Changes.{with_slot, does};
ghost use Rattle.model.specs.Asking.{queuing, with_room, may_join, client_asks, client_acquires};
ghost use Rattle.laws.specs.Shapes.{CanonicalQueue};
ghost use Rattle.rules.specs.Effects.{verdict_of};

use crate::effect::{Effect, Sends, doing, sending};
use crate::site::{with_slot, with_status};
use model::{Address, Agent, ClientId, Message, Mode, Site, Status, Waiter};
use parts::blank::{plain_packet, some_agent};
use parts::holders::{is_shared, join};
use queues::{no_room, push, writer_first};

// A request may join the holders of the site's agent: agent and request are both shared, and no writer in the queue comes first.
#[tactic(auto, unfolding(model::specs::Asking::may_join))]
pub fn may_join(v: Site, m: Mode) -> bool
    requires { CanonicalQueue v.slot.agent.queue }
    ensures { result ≡ may_join v m }
{
    let a = v.slot.agent;
    is_shared(a.mode) && is_shared(m) && !writer_first(v.preference, a)
}

// The client joins the end of the agent's queue.
#[tactic(auto, using(crate::specs::Room::room_left))]
pub fn queue_last(v: Site, mut a: Agent, c: ClientId, m: Mode) -> Option<Effect>
    requires { CanonicalQueue a.queue }
    ensures { verdict_of result ≡ with_room a c (does (with_slot v (some_agent (queuing a c m))) []) }
{
    if no_room(a, c) {
        return None;
    }
    a.queue = push(a.queue, Waiter { client: c, mode: m });
    doing(with_slot(v, some_agent(a)), Sends::Nothing)
}

// An agent is on the client's machine.
#[tactic(auto, unfolding(model::specs::Asking::client_asks))]
fn ask_agent(v: Site, c: ClientId, m: Mode) -> Option<Effect>
    requires { CanonicalQueue v.slot.agent.queue }
    ensures { verdict_of result ≡ client_asks v c m true v.slot.agent }
{
    let a = v.slot.agent;
    if may_join(v, m) {
        let holding = with_status(v, Status::Holding(m));
        doing(with_slot(holding, some_agent(join(a, c))), Sends::Nothing)
    } else {
        queue_last(with_status(v, Status::Waiting(m)), a, c, m)
    }
}

// No agent is on the client's machine.
#[tactic(auto, unfolding(model::specs::Asking::client_asks))]
fn ask_decider(v: Site, c: ClientId, m: Mode) -> Option<Effect>
    ensures { verdict_of result ≡ client_asks v c m false v.slot.agent }
{
    let request = Message::Acquire {
        client: c,
        mode: m,
        granted: false,
    };
    sending(
        with_status(v, Status::Waiting(m)),
        plain_packet(request, Address::Decider),
    )
}

#[tactic(auto, unfolding(model::specs::Asking::client_acquires))]
pub fn acquire(v: Site, c: ClientId, m: Mode) -> Option<Effect>
    requires { CanonicalQueue v.slot.agent.queue }
    ensures { verdict_of result ≡ client_acquires v c m }
{
    if v.slot.present {
        ask_agent(v, c, m)
    } else {
        ask_decider(v, c, m)
    }
}
