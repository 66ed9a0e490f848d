// The wire: packets in the order they were sent, in the first slots of an array.
ghost use Rattle.std.specs.Prelude.{◌≡◌, ◌<◌, get_or};
ghost use Rattle.model.specs.Lists.{removed};
ghost use Rattle.model.specs.States.{blank_packet, wire_of, packets};
ghost use Rattle.model.specs.Calls.{message_names};
ghost use Rattle.laws.specs.Shapes.{CanonicalWire};

use crate::blank::blank_packet;
use crate::slots::cut;
use model::{ClientId, Message, Packet, Wire};

// The packet at i goes off the wire.
#[tactic(auto, using(crate::specs::Writes::cut_off, crate::specs::Writes::none_off))]
pub fn remove(w: &mut Wire, i: u8)
    requires { CanonicalWire w.old }
    ensures { w.new ≡ wire_of (removed (packets w.old) i) }
{
    if i < w.len {
        let n = w.len;
        cut(&mut w.slots, i, n, blank_packet());
        w.len -= 1;
    }
}

// The wire without the packet at i.
pub fn take_off(mut w: Wire, i: u8) -> Wire
    requires { CanonicalWire w }
    ensures { result ≡ wire_of (removed (packets w) i) }
{
    remove(&mut w, i);
    w
}

#[tactic(auto, using(laws::specs::Shapes::packet_is))]
pub fn packet_at(w: &Wire, i: u8) -> Packet
    requires { (CanonicalWire w.now) × (i < w.now.len) }
    ensures { result ≡ get_or (packets w.now) i blank_packet }
{
    w.slots[usize::from(i)]
}

// FREE names no client.
pub(crate) fn message_names(m: Message, c: ClientId) -> bool
    ensures { result ≡ message_names c m }
{
    match m {
        Message::Free => false,
        Message::Acquire { client, .. }
        | Message::Grant { client, .. }
        | Message::Release { client } => client == c,
    }
}
