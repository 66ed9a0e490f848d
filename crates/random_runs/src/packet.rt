// docs/random-runs.md, 'Hand-made states': the packet, with the fault of its slot: 4 to 8 or 15, or one of its agent.
ghost use Rattle.std.specs.Prelude.{◌<◌};

use crate::agent::{agent, agent_slot, mode};
use crate::fault::Fault;
use crate::generator::Generator;
use model::{Address, ClientId, MachineId, Message, Mode, Packet};

// By 3 × b + r.
const COUNTS: [u8; 6] = [0, 0, 1, 253, 254, 255];

// The drawn kind: 0 to 2 ACQUIRE, 3 to 5 GRANT, 6 RELEASE, 7 FREE.
fn message(kind: u8, client: ClientId, mode: Mode, granted: bool) -> Message {
    match kind {
        0..=2 => Message::Acquire {
            client,
            mode,
            granted,
        },
        3..=5 => Message::Grant { client, mode },
        6 => Message::Release { client },
        _ => Message::Free,
    }
}

// Without fault 7.
fn carries(m: &Message, b: u8) -> bool {
    match m {
        Message::Free => true,
        Message::Grant { .. } => b == 0,
        Message::Acquire { .. } | Message::Release { .. } => false,
    }
}

// The client with fault 5.
fn client(drawn: u8, fault: Option<Fault>) -> ClientId {
    match fault {
        Some(Fault::UnknownClient(v)) => ClientId(v.wrapping_add(16)),
        _ => ClientId(drawn),
    }
}

// The address with the faults 4 and 8.
fn address(to_machine: bool, a: u8, fault: Option<Fault>) -> Address {
    let other = matches!(fault, Some(Fault::Direction));
    match fault {
        Some(Fault::UnknownAddress(v)) => Address::Machine(MachineId(v.wrapping_add(4))),
        _ if to_machine != other => Address::Machine(MachineId(a % 4)),
        _ => Address::Decider,
    }
}

// The count with fault 15.
fn count(m: &Message, b: u8, r: u8, fault: Option<Fault>) -> u8
    requires { (b < 2) × (r < 3) }
{
    match (fault, m) {
        (Some(Fault::Count(v)), _) => v.wrapping_add(1),
        (_, Message::Acquire { .. } | Message::Release { .. }) => COUNTS[usize::from(3 * b + r)],
        (_, Message::Grant { .. } | Message::Free) => 0,
    }
}

// Faults 6, 7 and 8 change nothing else: the rest goes by what is so without them.
pub fn packet(g: &mut Generator, fault: Option<Fault>) -> Packet {
    let kind = g.draw(8);
    let drawn = g.draw(16);
    let mode = mode(g);
    let granted = g.draw(4) == 0;
    let a = g.draw(8);
    let b = g.draw(2);
    let r = g.draw(3);
    let agent = agent(g);
    let message = message(kind, client(drawn, fault), mode, granted);
    let carries = carries(&message, b);
    let rejected = carries && r == 0;
    let to_machine = rejected || (a >= 4 && !matches!(message, Message::Free));
    Packet {
        message,
        to: address(to_machine, a, fault),
        rejected: rejected != matches!(fault, Some(Fault::Rejection)),
        circled: count(&message, b, r, fault),
        carried: agent_slot(
            carries != matches!(fault, Some(Fault::Carrying)),
            agent,
            fault,
        ),
    }
}
