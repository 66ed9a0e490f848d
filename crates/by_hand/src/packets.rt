// The packet that the script makes: `packet ..`.
use crate::agents::mode;
use crate::line::command;
use crate::print::Output;
use model::{Address, AgentSlot, ClientId, MachineId, Message, Packet};
use parts::blank::plain_packet;

fn to_decider(message: Message) -> Packet {
    plain_packet(message, Address::Decider)
}

fn acquire(c: u8, m: u8, granted: bool) -> Packet {
    to_decider(Message::Acquire {
        client: ClientId(c),
        mode: mode(m),
        granted,
    })
}

fn grant(c: u8, m: u8) -> Packet {
    to_decider(Message::Grant {
        client: ClientId(c),
        mode: mode(m),
    })
}

fn release(c: u8) -> Packet {
    to_decider(Message::Release {
        client: ClientId(c),
    })
}

// What the command s makes of the packet. The slot is what it carries when the command says so.
pub fn made(out: &mut Output<'_, impl Print>, packet: &mut Packet, slot: &AgentSlot, s: &[u8]) {
    let Some((word, numbers)) = command(s) else {
        return out.not_understood(s);
    };
    match (word, numbers.as_slice()) {
        (b"ACQUIRE", &[c, m]) => *packet = acquire(c, m, false),
        (b"MARKED", &[c, m]) => *packet = acquire(c, m, true),
        (b"GRANT", &[c, m]) => *packet = grant(c, m),
        (b"RELEASE", &[c]) => *packet = release(c),
        (b"FREE", &[]) => *packet = to_decider(Message::Free),
        (b"to", &[k]) => packet.to = Address::Machine(MachineId(k)),
        (b"rejected", &[]) => packet.rejected = true,
        (b"carries", &[]) => packet.carried = *slot,
        (b"circled", &[n]) => packet.circled = n,
        _ => out.not_understood(s),
    }
}
