// A lock's state in JSON. Each function puts its part behind the lines that are there.
#![tactic(auto)]

ghost use Rattle.std.specs.Iterator.{IsFinite};

use listing::Lines;
use model::{
    Address, Agent, AgentSlot, CLIENTS, ClientId, ClientState, Decider, LockState, Message, Owner,
    Packet, Queue, Reason, ReasonAnswer, Status, Waiter, Wire,
};
use reasons::reason_in;

// A field's name and its number.
pub fn put_field(lines: &mut Lines, name: &[u8], n: u16) {
    lines.text(name);
    lines.decimal(n);
}

// The same of a field that has null where there is no number.
pub fn put_optional(lines: &mut Lines, name: &[u8], n: Option<u8>) {
    lines.text(name);
    match n {
        Some(n) => lines.decimal(n as u16),
        None => lines.text(b"null"),
    }
}

// A list of what there is, each put by put, with commas between.
pub fn put_list<I: Iterator + Drop, F: FnMut(&mut Lines, I::Item)>(
    lines: &mut Lines,
    members: I,
    mut put: F,
)
    requires can { I.can_next members }
    requires ends { IsFinite (I.remaining members) }
    requires each { F.IsAlwaysCallable put }
{
    lines.text(b"[");
    let mut between: &[u8] = b"";
    for member in members {
        lines.text(between);
        put(lines, member);
        between = b",";
    }
    lines.text(b"]");
}

fn put_bool(lines: &mut Lines, name: &[u8], b: bool) {
    lines.text(name);
    if b {
        lines.text(b"true");
    } else {
        lines.text(b"false");
    }
}

fn put_decider(lines: &mut Lines, d: &Decider) {
    let (mode, machine) = match d.owner {
        Owner::Free => (0, None),
        Owner::Owned(m, machine) => (m.number(), Some(machine.0)),
    };
    put_field(lines, b"{\"mode\":", mode as u16);
    put_optional(lines, b",\"machine\":", machine);
    put_field(lines, b",\"incarnation\":", d.incarnation as u16);
    put_bool(lines, b",\"writer\":", d.writer);
    lines.text(b"}");
}

fn put_waiter(lines: &mut Lines, w: &Waiter) {
    put_field(lines, b"{\"client\":", w.client.0 as u16);
    put_field(lines, b",\"mode\":", w.mode.number() as u16);
    lines.text(b"}");
}

fn put_queue(lines: &mut Lines, q: &Queue) {
    put_list(lines, q.slots.iter().take(q.len as usize), put_waiter);
}

fn put_holders(lines: &mut Lines, holders: &[bool; CLIENTS]) {
    let clients = (0..CLIENTS as u8).zip(holders).filter(|(_, holds)| **holds);
    put_list(lines, clients, |lines, (c, _)| lines.decimal(c as u16));
}

fn put_slot(lines: &mut Lines, s: &AgentSlot) {
    if s.present {
        put_agent(lines, &s.agent);
    } else {
        lines.text(b"null");
    }
}

fn put_agent(lines: &mut Lines, a: &Agent) {
    put_field(lines, b"{\"mode\":", a.mode.number() as u16);
    lines.text(b",\"holders\":");
    put_holders(lines, &a.holders);
    lines.text(b",\"queue\":");
    put_queue(lines, &a.queue);
    put_field(lines, b",\"incarnation\":", a.incarnation as u16);
    lines.text(b"}");
}

fn put_reason(lines: &mut Lines, r: Reason) {
    let (kind, index, machine, ahead): (&[u8], _, _, _) = match r {
        Reason::Requested { index } => (b"ACQUIRE", Some(index), None, None),
        Reason::Granted { index } => (b"GRANT", Some(index), None, None),
        Reason::Rejected { index } => (b"rejected GRANT", Some(index), None, None),
        Reason::Queued { machine, ahead } => (b"queue", None, Some(machine.0), Some(ahead)),
        Reason::Carried { index, ahead } => (b"queue", Some(index), None, Some(ahead)),
        Reason::GrantLost => (b"grant lost", None, None, None),
    };
    lines.text(b"{\"kind\":\"");
    lines.text(kind);
    put_optional(lines, b"\",\"index\":", index);
    put_optional(lines, b",\"machine\":", machine);
    put_optional(lines, b",\"ahead\":", ahead);
    lines.text(b"}");
}

// A client's status, its note, and why it waits.
fn put_client(lines: &mut Lines, c: &ClientState, a: ReasonAnswer) {
    let (status, mode): (&[u8], _) = match c.status {
        Status::Idle => (b"idle", None),
        Status::Waiting(m) => (b"waiting", Some(m.number())),
        Status::Holding(m) => (b"holding", Some(m.number())),
    };
    lines.text(b"{\"status\":\"");
    lines.text(status);
    put_optional(lines, b"\",\"mode\":", mode);
    put_bool(lines, b",\"lost\":", c.lost);
    lines.text(b",\"reason\":");
    match a {
        Ok(r) => put_reason(lines, r),
        Err(_) => lines.text(b"null"),
    }
    lines.text(b"}");
}

fn kind_of(m: Message) -> &'static [u8] {
    match m {
        Message::Free => b"FREE",
        Message::Acquire { .. } => b"ACQUIRE",
        Message::Grant { .. } => b"GRANT",
        Message::Release { .. } => b"RELEASE",
    }
}

// Whom the message names, in which mode, and whether it is marked.
fn put_about(lines: &mut Lines, m: Message) {
    let (client, mode, granted) = match m {
        Message::Free => (None, None, false),
        Message::Acquire {
            client,
            mode,
            granted,
        } => (Some(client.0), Some(mode.number()), granted),
        Message::Grant { client, mode } => (Some(client.0), Some(mode.number()), false),
        Message::Release { client } => (Some(client.0), None, false),
    };
    put_optional(lines, b",\"client\":", client);
    put_optional(lines, b",\"mode\":", mode);
    put_bool(lines, b",\"granted\":", granted);
}

fn put_packet(lines: &mut Lines, p: &Packet) {
    let to = match p.to {
        Address::Decider => None,
        Address::Machine(machine) => Some(machine.0),
    };
    lines.text(b"{\"kind\":\"");
    lines.text(kind_of(p.message));
    put_optional(lines, b"\",\"to\":", to);
    put_about(lines, p.message);
    put_bool(lines, b",\"rejected\":", p.rejected);
    put_field(lines, b",\"circled\":", p.circled as u16);
    lines.text(b",\"agent\":");
    put_slot(lines, &p.carried);
    lines.text(b"}");
}

fn put_wire(lines: &mut Lines, w: &Wire) {
    put_list(lines, w.slots.iter().take(w.len as usize), put_packet);
}

fn put_clients(lines: &mut Lines, s: &LockState) {
    let clients = (0..CLIENTS as u8).zip(&s.clients);
    put_list(lines, clients, |lines, (i, client)| {
        put_client(lines, client, reason_in(s, ClientId(i)))
    });
}

pub fn put_state(lines: &mut Lines, s: &LockState) {
    lines.text(b"{\"decider\":");
    put_decider(lines, &s.decider);
    lines.text(b",\"agents\":");
    put_list(lines, s.agents.iter(), put_slot);
    lines.text(b",\"clients\":");
    put_clients(lines, s);
    lines.text(b",\"wire\":");
    put_wire(lines, &s.wire);
    lines.text(b"}");
}
