// The searches of a wire for a packet and of a queue for a client. They end at the first hit, and take any wire and queue, made by hand or not.
ghost use Rattle.std.specs.Prelude.{◌≡◌};
ghost use Rattle.model.specs.Lists.{IsFirst};
ghost use Rattle.model.specs.States.{packets, waiters};
ghost use Rattle.model.specs.Calls.{names};
ghost use Rattle.model.specs.Trace.{is_grant_for};
ghost use Rattle.model.specs.Reasons.{is_request_of};
ghost use Rattle.model.specs.WellFormed.{is_client};
ghost use Rattle.parts.specs.Sought.{is_sought};

use crate::slots::first_index;
use crate::wire::message_names;
use model::{ClientId, Message, Packet, Queue, Wire};

// Which packet of the client: any that names it, its request, its grant, its grant that was rejected.
#[derive(Clone, Copy, Drop)]
pub enum Sought {
    Named,
    Request,
    Grant,
    RejectedGrant,
}

fn is_sought(k: Sought, c: ClientId, p: &Packet) -> bool
    ensures { result ≡ is_sought k c p.now }
{
    match k {
        Sought::Named => message_names(p.message, c),
        Sought::Request => is_request_of(c, p.message),
        Sought::Grant => !p.rejected && is_grant_for(c, p.message),
        Sought::RejectedGrant => p.rejected && is_grant_for(c, p.message),
    }
}

// The first packet of the wire that is sought.
#[tactic(auto, unfolding(model::specs::States::packets))]
pub fn first_packet(w: &Wire, k: Sought, c: ClientId) -> Option<u8>
    ensures { IsFirst (is_sought k c) (packets w.now) result }
{
    first_index(&w.slots, w.len, |p| is_sought(k, c, p))
}

// The first packet of the wire that names the client.
pub fn first_naming(w: Wire, c: ClientId) -> Option<u8>
    ensures { IsFirst (names c) (packets w) result }
{
    first_packet(&w, Sought::Named, c)
}

// Where the client stands in the queue.
pub fn first_waiter(q: &Queue, c: ClientId) -> Option<u8>
    ensures { IsFirst (is_client c) (waiters q.now) result }
{
    first_index(&q.slots, q.len, |w| w.client == c)
}

// A marked ACQUIRE is of a client that was granted before.
pub fn is_request_of(c: ClientId, m: Message) -> bool
    ensures { result ≡ is_request_of c m }
{
    matches!(m, Message::Acquire { client, granted: false, .. } if client == c)
}

pub fn is_grant_for(c: ClientId, m: Message) -> bool
    ensures { result ≡ is_grant_for c m }
{
    matches!(m, Message::Grant { client, .. } if client == c)
}
