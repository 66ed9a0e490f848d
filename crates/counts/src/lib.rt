// The two counts of any lock state, made by hand or not: its agents, and the marked ACQUIREs on its wire. docs/why-49.md says what they are for.
#![tactic(auto)]

ghost use Rattle.std.specs.Prelude.{◌≡◌, ◌≤◌, take, length};
ghost use Rattle.model.specs.Lists.{count};
ghost use Rattle.model.specs.States.{machines, wire_capacity};
ghost use Rattle.model.specs.Counts.{agents_in, is_marked, marks_in};

use model::{AgentSlot, LockState, MACHINES, Message, Packet, WIRE_CAPACITY};
use parts::used::used;

fn is_marked(m: Message) -> bool
    ensures { result ≡ is_marked m }
{
    matches!(m, Message::Acquire { granted: true, .. })
}

// The packets in use.
fn in_use(a: &[Packet; WIRE_CAPACITY], len: u8) -> &[Packet]
    ensures same { result.now ≡ take len a.now }
    ensures few { length result.now ≤ wire_capacity }
{
    &a[..used(len, WIRE_CAPACITY)]
}

#[tactic(auto, using(crate::specs::Counting::counted))]
fn on_machines(a: &[AgentSlot; MACHINES]) -> u8
    ensures same { result ≡ count (λ x. x.present) a.now }
    ensures few { result ≤ machines }
{
    a.iter().filter(|x| x.present).count() as u8
}

// The agents, on machines and in packets.
#[tactic(auto, using(crate::specs::Counting::counted), unfolding(model::specs::States::packets))]
pub fn agents_in(s: LockState) -> u8
    ensures { result ≡ agents_in s }
{
    let packets = in_use(&s.wire.slots, s.wire.len);
    let on_wire = packets.iter().filter(|p| p.carried.present).count();
    on_machines(&s.agents) + on_wire as u8
}

// The marked ACQUIREs on the wire.
#[tactic(auto, using(crate::specs::Counting::counted), unfolding(model::specs::States::packets))]
pub fn marks_in(s: LockState) -> u8
    ensures { result ≡ marks_in s }
{
    let packets = in_use(&s.wire.slots, s.wire.len);
    packets.iter().filter(|p| is_marked(p.message)).count() as u8
}
