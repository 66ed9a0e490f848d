// What a rule says of a step, as the model's verdict does: all that it writes and sends, or None where it cannot be placed.
ghost use Rattle.std.specs.Prelude.{◌≡◌, ◌≤◌, [], ◌∷◌, length};
ghost use Rattle.model.specs.States.{queue_capacity};
ghost use Rattle.model.specs.Changes.{does};
ghost use Rattle.rules.specs.Effects.{sent_by, verdict_of};

use model::{Packet, QUEUE_CAPACITY, Queue, Site};
use parts::used::used;

// The packets that a step sends, in their order. Grants: one for each waiter of the queue.
#[derive(Clone, Copy, Drop)]
pub enum Sends {
    Nothing,
    One(Packet),
    Two(Packet, Packet),
    Grants(Queue),
}

impl Sends {
    // How many packets they are. A queue made by hand may claim more waiters than it has.
    #[tactic(auto, unfolding(model::specs::States::waiters))]
    pub fn count(self) -> usize
        ensures few { result ≤ queue_capacity }
        ensures all { result ≡ length (sent_by self) }
    {
        match self {
            Sends::Nothing => 0,
            Sends::One(_) => 1,
            Sends::Two(_, _) => 2,
            Sends::Grants(q) => used(q.len, QUEUE_CAPACITY),
        }
    }
}

// What a step that is placed writes and sends.
#[derive(Clone, Copy, Drop)]
pub struct Effect {
    pub site: Site,
    pub sends: Sends,
}

// The step is placed.
pub fn doing(site: Site, sends: Sends) -> Option<Effect>
    ensures { verdict_of result ≡ does site (sent_by sends) }
{
    Some(Effect { site, sends })
}

// Nothing but a packet sent.
pub fn sending(site: Site, p: Packet) -> Option<Effect>
    ensures { verdict_of result ≡ does site (p ∷ []) }
{
    doing(site, Sends::One(p))
}
