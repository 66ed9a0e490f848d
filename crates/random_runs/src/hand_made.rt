// docs/random-runs.md, 'Hand-made states': the lock, with the faults 10 to 12, 14 and 16, and the cluster, with fault 13.
ghost use Rattle.std.specs.Prelude.{◌<◌, ◌≤◌};
ghost use Rattle.model.specs.States.{locks, wire_capacity};

use crate::agent::{agent, agent_slot, incarnation};
use crate::fault::{Fault, Placed};
use crate::generator::Generator;
use crate::packet::packet;
use model::{
    Address, AgentSlot, CLIENTS, ClientId, ClientState, Cluster, Decider, LockState, MACHINES,
    MachineId, Message, Mode, Owner, Packet, Status, WIRE_CAPACITY, Wire,
};
use parts::blank::{blank_packet, no_agent, plain_packet};
use parts::state::is_waiting;
use std::array;

const WIRE_LENGTHS: [u8; 16] = [0, 0, 1, 1, 1, 2, 2, 2, 3, 3, 4, 5, 6, 47, 48, 49];

// 0 free, 1 exclusive, 2 and 3 shared.
fn owner(k: u8, machine: u8) -> Owner {
    match k {
        0 => Owner::Free,
        1 => Owner::Owned(Mode::Exclusive, MachineId(machine)),
        _ => Owner::Owned(Mode::Shared, MachineId(machine)),
    }
}

// Item 2, with the faults 10 and 14; writer is the bit without them.
fn decider(g: &mut Generator, writer: bool, fault: Option<Fault>) -> Decider {
    let k = g.draw(4);
    let drawn = g.draw(4);
    let machine = match fault {
        Some(Fault::UnknownOwner(v)) => v.wrapping_add(4),
        _ => drawn,
    };
    Decider {
        owner: owner(k, machine),
        incarnation: incarnation(g),
        writer: writer || matches!(fault, Some(Fault::Writer)),
    }
}

// The agent of machine k is there if x is below this.
fn agent_odds(o: Owner, k: u8) -> u8 {
    match o {
        Owner::Owned(_, m) if m.0 == k => 6,
        _ => 1,
    }
}

// Item 3 for machine k.
fn on_machine(g: &mut Generator, o: Owner, k: u8, fault: Option<Fault>) -> AgentSlot {
    let x = g.draw(8);
    let a = agent(g);
    agent_slot(x < agent_odds(o, k), a, fault)
}

// Item 3 for all.
fn agents(g: &mut Generator, o: Owner, placed: Placed) -> [AgentSlot; MACHINES] {
    let mut slots = [no_agent(); MACHINES];
    for (slot, k) in slots.iter_mut().zip(0..MACHINES as u8) {
        *slot = on_machine(g, o, k, placed.at(k));
    }
    slots
}

fn status(n: u8) -> Status {
    match n {
        2 => Status::Waiting(Mode::Exclusive),
        3 => Status::Waiting(Mode::Shared),
        6 => Status::Holding(Mode::Exclusive),
        7 => Status::Holding(Mode::Shared),
        _ => Status::Idle,
    }
}

// Item 4 for one client.
fn client(g: &mut Generator) -> ClientState {
    let status = status(g.draw(8));
    let y = g.draw(4);
    ClientState {
        status,
        lost: is_waiting(status) && y == 0,
    }
}

// Item 4 for all, with fault 16.
fn clients(g: &mut Generator, fault: Option<Fault>) -> [ClientState; CLIENTS] {
    let mut states = array::from_fn(|_| client(g));
    if let Some(Fault::Note(v)) = fault {
        states[usize::from(v % 16)].lost = true;
    }
    states
}

// Item 5: the wire's slots, with n packets.
fn packets(g: &mut Generator, n: u8, placed: Placed) -> [Packet; WIRE_CAPACITY]
    requires { n ≤ wire_capacity }
{
    let mut slots = [blank_packet(); WIRE_CAPACITY];
    for (slot, t) in slots.iter_mut().zip(4..4 + n) {
        *slot = packet(g, placed.at(t));
    }
    slots
}

// The wire with the faults 11 and 12.
fn wire(slots: [Packet; WIRE_CAPACITY], n: u8, fault: Option<Fault>) -> Wire {
    let mut w = Wire { slots, len: n };
    match fault {
        Some(Fault::LongWire(v)) => w.len = 50 + v % 206,
        Some(Fault::StrayPacket) if usize::from(n) < WIRE_CAPACITY => {
            let client = ClientId(1);
            w.slots[WIRE_CAPACITY - 1] = plain_packet(
                Message::Release { client },
                Address::Decider,
            );
        }
        _ => {}
    }
    w
}

// Fault 11 wants all 49 slots drawn.
fn packet_count(i: u8, fault: Option<Fault>) -> u8
    requires { i < 16 }
    ensures { result ≤ wire_capacity }
{
    match fault {
        Some(Fault::LongWire(_)) => 49,
        _ => WIRE_LENGTHS[usize::from(i)],
    }
}

// A lock and its fault.
fn lock(g: &mut Generator, prefers: bool) -> (LockState, Option<Fault>) {
    let f = g.draw(17);
    let v = g.draw(239);
    let fault = Fault::numbered(f, v);
    let n = packet_count(g.draw(16), fault);
    let slot = g.draw(4 + u16::from(n));
    let placed = Placed { fault, slot };
    let decider = decider(g, prefers && v % 2 == 1, fault);
    let agents = agents(g, decider.owner, placed);
    let clients = clients(g, fault);
    let wire = wire(packets(g, n, placed), n, fault);
    let lock = LockState {
        decider,
        agents,
        clients,
        wire,
    };
    (lock, fault)
}

// A lock of the cluster is drawn; fault 13 is the cluster's.
fn draw_lock(x: &mut Cluster, g: &mut Generator, at: u32, prefers: bool)
    requires { at < locks }
{
    let (lock, fault) = lock(g, prefers);
    x.locks[at as usize] = lock;
    if let Some(Fault::Preference(v)) = fault {
        x.preference = v.wrapping_add(2);
    }
}

// The cluster of a seed.
pub fn cluster(g: &mut Generator, seed: u32) -> Cluster {
    let prefers = seed / 32 % 2 == 1;
    let mut x = engine::fresh(u8::from(prefers)).cluster;
    draw_lock(&mut x, g, seed % 8, prefers);
    if seed / 8 % 2 == 1 {
        draw_lock(&mut x, g, (seed % 8 + 1) % 8, prefers);
    }
    x
}
