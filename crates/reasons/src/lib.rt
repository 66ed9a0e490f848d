// Why a client waits, in any state of a lock, made by hand or not: the first true of document 02's reasons, each at its lowest index or machine.
#![tactic(auto)]

ghost use Rattle.std.specs.Prelude.{◌≡◌, ◌≤◌, ℕ, length};
ghost use Rattle.model.specs.declared.{AgentSlot.AgentSlot, Reason.Reason};
ghost use Rattle.model.specs.declared.Reason.TheVariants.{Carried};
ghost use Rattle.model.specs.Reasons.{first_true, reasons_in, reason_in};
ghost use Rattle.reasons.specs.Searching.{ahead_in, seek_queues, on_machine, itself, inside, lost_reason, other_reason};

use model::{AgentSlot, ClientId, LockState, MachineId, Packet, Reason, ReasonAnswer, Refusal};
use parts::search::{Sought, first_packet, first_waiter};
use parts::slots::in_use;
use parts::state::{is_waiting, note_at, status_at};

// How many are ahead of the client, where an agent is there and has it in its queue.
fn ahead_in(c: ClientId, x: &AgentSlot) -> Option<u8>
    ensures { result ≡ ahead_in c x.now }
{
    if x.present {
        first_waiter(&x.agent.queue, c)
    } else {
        None
    }
}

// Where an agent may be: on a machine, or inside a packet.
trait Place {
    ghost slot_of: { Self → AgentSlot };

    ghost reason_of: { ℕ → ℕ → Reason };

    fn slot(&self) -> &AgentSlot
        ensures { result.now ≡ slot_of self.now };

    // The reason of who stands in the queue there, at the place with this index.
    fn reason(index: u8, ahead: u8) -> Reason
        ensures { result ≡ reason_of index ahead };
}

impl Place for AgentSlot {
    ghost slot_of = { itself };

    ghost reason_of = { on_machine };

    fn slot(&self) -> &AgentSlot {
        self
    }

    fn reason(index: u8, ahead: u8) -> Reason {
        Reason::Queued {
            machine: MachineId(index),
            ahead,
        }
    }
}

impl Place for Packet {
    ghost slot_of = { inside };

    ghost reason_of = { Carried };

    fn slot(&self) -> &AgentSlot {
        &self.carried
    }

    fn reason(index: u8, ahead: u8) -> Reason {
        Reason::Carried { index, ahead }
    }
}

// The first place in whose queue the client stands.
fn first_queue<P: Place>(places: &[P], c: ClientId) -> ReasonAnswer
    requires { length places.now ≤ 256 }
    ensures { result ≡ seek_queues c P.slot_of P.reason_of 0 places.now }
{
    for (i, place) in places.iter().enumerate() {
        if let Some(ahead) = ahead_in(c, place.slot()) {
            return Ok(P::reason(i as u8, ahead));
        }
    }
    Err(Refusal::NotWaiting)
}

// The note of a lost GRANT.
fn grant_lost(b: bool) -> ReasonAnswer
    ensures { result ≡ lost_reason b }
{
    b.then_some(Reason::GrantLost).ok_or(Refusal::NotWaiting)
}

// Agents on machines come first, then those inside packets; the note is the last of the reasons.
#[tactic(auto, unfolding(model::specs::States::packets))]
fn first_in_state(s: &LockState, c: ClientId) -> ReasonAnswer
    ensures { result ≡ other_reason s.now c }
{
    first_queue(&s.agents, c)
        .or_else(|_| first_queue(in_use(&s.wire.slots, s.wire.len), c))
        .or_else(|_| grant_lost(note_at(&s.clients, c)))
}

// Packets of the client come before queues.
fn first_true(s: &LockState, c: ClientId) -> ReasonAnswer
    ensures { result ≡ first_true s.now c (reasons_in s.now) }
{
    if let Some(index) = first_packet(&s.wire, Sought::Request, c) {
        return Ok(Reason::Requested { index });
    }
    if let Some(index) = first_packet(&s.wire, Sought::Grant, c) {
        return Ok(Reason::Granted { index });
    }
    if let Some(index) = first_packet(&s.wire, Sought::RejectedGrant, c) {
        return Ok(Reason::Rejected { index });
    }
    first_in_state(s, c)
}

// The reason, in one lock's state.
#[tactic(auto, unfolding(model::specs::Reasons::reason_in))]
pub fn reason_in(s: &LockState, c: ClientId) -> ReasonAnswer
    ensures { result ≡ reason_in s.now c }
{
    if is_waiting(status_at(&s.clients, c)) {
        first_true(s, c)
    } else {
        Err(Refusal::NotWaiting)
    }
}
