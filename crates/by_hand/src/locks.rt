// The state that the script makes of a lock: `lock ..`.
use crate::agents::mode;
use crate::line::command;
use crate::print::Output;
use model::{
    AgentSlot, ClientState, Decider, LockState, MachineId, Owner, Packet, Status, WIRE_CAPACITY,
    Wire,
};
use parts::blank::unowned;

fn owned(m: u8, k: u8) -> Decider {
    Decider {
        owner: Owner::Owned(mode(m), MachineId(k)),
        ..unowned()
    }
}

fn client(status: Status) -> ClientState {
    ClientState {
        status,
        lost: false,
    }
}

// The packet at each index of a full wire.
fn filled(packet: &Packet) -> Wire {
    Wire {
        slots: [*packet; WIRE_CAPACITY],
        len: WIRE_CAPACITY as u8,
    }
}

// What the command s, whose first number is the lock's, makes of the state. The slot and the packet are what it puts there.
pub fn made(
    out: &mut Output<'_, impl Print>,
    state: &mut LockState,
    slot: &AgentSlot,
    packet: &Packet,
    s: &[u8],
) {
    let Some((word, numbers)) = command(s) else {
        return out.not_understood(s);
    };
    match (word, numbers.as_slice()) {
        (b"owned", &[_, m, k]) => state.decider = owned(m, k),
        (b"free", &[_]) => state.decider = unowned(),
        (b"incarnation", &[_, n]) => state.decider.incarnation = n,
        (b"writer", &[_]) => state.decider.writer = true,
        (b"agent", &[_, k]) => out.put(state.agents.get_mut(k as usize), *slot),
        (b"holds", &[_, c, m]) => out.put(
            state.clients.get_mut(c as usize),
            client(Status::Holding(mode(m))),
        ),
        (b"waits", &[_, c, m]) => out.put(
            state.clients.get_mut(c as usize),
            client(Status::Waiting(mode(m))),
        ),
        (b"lost", &[_, c]) => match state.clients.get_mut(c as usize) {
            Some(client) => client.lost = true,
            None => out.out_of_range(),
        },
        (b"packet", &[_, j]) => out.put(state.wire.slots.get_mut(j as usize), *packet),
        (b"length", &[_, n]) => state.wire.len = n,
        (b"filled", &[_]) => state.wire = filled(packet),
        _ => out.not_understood(s),
    }
}
