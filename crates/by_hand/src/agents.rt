// The agent that the script makes: `agent ..`.
use crate::line::command;
use crate::print::Output;
use model::{AgentSlot, ClientId, Mode, Waiter};
use parts::blank::{new_agent, some_agent};

// The mode of document 01's number; any other number than 2 is shared.
pub fn mode(m: u8) -> Mode {
    Mode::try_from(m).unwrap_or(Mode::Shared)
}

// An agent that is not there has its parts all the same.
fn absent(m: u8) -> AgentSlot {
    AgentSlot {
        present: false,
        agent: new_agent(mode(m)),
    }
}

// What the command s makes of the slot.
pub fn made(out: &mut Output<'_, impl Print>, slot: &mut AgentSlot, s: &[u8]) {
    let Some((word, numbers)) = command(s) else {
        return out.not_understood(s);
    };
    match (word, numbers.as_slice()) {
        (b"new", &[m]) => *slot = some_agent(new_agent(mode(m))),
        (b"absent", &[m]) => *slot = absent(m),
        (b"holder", &[c]) => out.put(slot.agent.holders.get_mut(c as usize), true),
        (b"waiter", &[j, c, m]) => {
            let waiter = Waiter {
                client: ClientId(c),
                mode: mode(m),
            };
            out.put(slot.agent.queue.slots.get_mut(j as usize), waiter);
        }
        (b"length", &[n]) => slot.agent.queue.len = n,
        (b"incarnation", &[n]) => slot.agent.incarnation = n,
        _ => out.not_understood(s),
    }
}
