// docs/random-runs.md, 'Hand-made states': the agent, with the fault of its slot: 1, 2, 3 or 9.
use crate::fault::Fault;
use crate::generator::Generator;
use model::{Agent, AgentSlot, CLIENTS, ClientId, Mode, QUEUE_CAPACITY, Queue, Waiter};
use parts::blank::{blank_waiter, no_agent, some_agent};
use std::array;

// 2 + draw(2) of the page.
pub fn mode(g: &mut Generator) -> Mode {
    if g.draw(2) == 0 {
        Mode::Exclusive
    } else {
        Mode::Shared
    }
}

// (254 + draw(4)) mod 256: near 255, so that runs pass it.
pub fn incarnation(g: &mut Generator) -> u8 {
    g.draw(4).wrapping_add(254)
}

// A client is a holder if draw(16) is below the entry.
const HOLDER_ODDS: [u8; 4] = [0, 1, 4, 12];

const QUEUE_LENGTHS: [u8; 8] = [0, 0, 0, 1, 2, 3, 15, 16];

fn holders(g: &mut Generator) -> [bool; CLIENTS] {
    let odds = HOLDER_ODDS[usize::from(g.draw(4))];
    array::from_fn(|_| g.draw(16) < odds)
}

// Waiter i after the first, whose client is given.
fn waiter(g: &mut Generator, first: u8, i: u8) -> Waiter {
    Waiter {
        client: ClientId(((u16::from(first) + 5 * u16::from(i)) % 16) as u8),
        mode: mode(g),
    }
}

// A waiter for every slot, of which the queue has the first.
fn queue(g: &mut Generator) -> Queue {
    let len = QUEUE_LENGTHS[usize::from(g.draw(8))];
    let first = g.draw(16);
    let mut slots = [blank_waiter(); QUEUE_CAPACITY];
    for (slot, i) in slots.iter_mut().zip(0..QUEUE_CAPACITY as u8) {
        *slot = waiter(g, first, i);
    }
    Queue { slots, len }
}

// The drawn agent; its unused waiters still stand.
pub fn agent(g: &mut Generator) -> Agent {
    Agent {
        mode: mode(g),
        incarnation: incarnation(g),
        holders: holders(g),
        queue: queue(g),
    }
}

// The last waiter of the queue, if it has one, is this client.
fn rename_last(q: &mut Queue, client: ClientId) {
    if let Some(i) = q.len.checked_sub(1) {
        if let Some(w) = q.slots.get_mut(usize::from(i)) {
            w.client = client;
        }
    }
}

// The faults of a queue whose unused waiters are blank.
fn spoil(q: &mut Queue, fault: Option<Fault>) {
    match fault {
        Some(Fault::UnknownWaiter(v)) => rename_last(q, ClientId(v.wrapping_add(16))),
        Some(Fault::DoubleWaiter) => {
            let first = q.slots[0].client;
            rename_last(q, first)
        }
        Some(Fault::NotBlank) if usize::from(q.len) < QUEUE_CAPACITY => {
            q.slots[QUEUE_CAPACITY - 1] = Waiter {
                client: ClientId(1),
                mode: Mode::Shared,
            };
        }
        _ => {}
    }
}

// With fault 3 the unused waiters stand too, otherwise they are blank.
fn queue_with(mut q: Queue, fault: Option<Fault>) -> Queue {
    if let Some(Fault::LongQueue(v)) = fault {
        q.len = v.wrapping_add(17);
    } else {
        let used = usize::from(q.len);
        for waiter in q.slots.iter_mut().skip(used) {
            *waiter = blank_waiter();
        }
        spoil(&mut q, fault);
    }
    q
}

// The drawn agent, if it is there, with the fault of its slot.
pub fn agent_slot(there: bool, a: Agent, fault: Option<Fault>) -> AgentSlot {
    if there {
        let queue = queue_with(a.queue, fault);
        some_agent(Agent { queue, ..a })
    } else if matches!(fault, Some(Fault::NotBlank)) {
        AgentSlot {
            present: false,
            agent: Agent {
                incarnation: 1,
                ..a
            },
        }
    } else {
        no_agent()
    }
}
