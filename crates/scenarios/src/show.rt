// What lock 0 has, a line for each thing asked, and whether the cluster is fresh, or as the one that was kept: `show ..`.
use by_hand::line::command;
use by_hand::print::Output;
use counts::{agents_in, marks_in};
use model::{
    Agent, AgentSlot, CLIENTS, ClientId, ClientState, Cluster, Decider, LockState, MachineId,
    Owner, Queue, Status, Wire,
};
use parts::search::first_naming;

// Document 01's number.
fn owner(out: &mut Output<'_, impl Print>, owner: Owner) {
    match owner {
        Owner::Free => out.text(b"free"),
        Owner::Owned(mode, MachineId(k)) => {
            out.print(format_args!("mode {}, machine {k}", mode.number()));
        }
    }
}

fn decider(out: &mut Output<'_, impl Print>, decider: Decider) {
    out.text(b"decider: ");
    owner(out, decider.owner);
    out.print(format_args!(", incarnation {}", decider.incarnation));
    if decider.writer {
        out.text(b", a writer waits");
    }
    out.text(b"\n");
}

fn client(out: &mut Output<'_, impl Print>, clients: &[ClientState; CLIENTS], c: u8) {
    let Some(client) = clients.get(c as usize) else {
        return out.out_of_range();
    };
    out.client(c);
    match client.status {
        Status::Idle => out.text(b" idle"),
        Status::Waiting(mode) => out.print(format_args!(" waits {}", mode.number())),
        Status::Holding(mode) => out.print(format_args!(" holds {}", mode.number())),
    }
    if client.lost {
        out.text(b", its GRANT was lost");
    }
    out.text(b"\n");
}

fn holders(out: &mut Output<'_, impl Print>, set: &[bool; CLIENTS]) {
    for (c, holds) in (0..CLIENTS as u8).zip(set) {
        if *holds {
            out.text(b" ");
            out.client(c);
        }
    }
}

fn waiters(out: &mut Output<'_, impl Print>, queue: &Queue) {
    for waiter in queue.slots.iter().take(queue.len as usize) {
        out.text(b" ");
        out.client(waiter.client.0);
        out.print(format_args!(":{}", waiter.mode.number()));
    }
}

fn agent(out: &mut Output<'_, impl Print>, agent: &Agent) {
    let (mode, incarnation) = (agent.mode.number(), agent.incarnation);
    out.print(format_args!(": mode {mode}, incarnation {incarnation}"));
    out.text(b", holders");
    holders(out, &agent.holders);
    out.text(b", queue");
    waiters(out, &agent.queue);
}

// The agent of the machine, or none.
fn machine(out: &mut Output<'_, impl Print>, agents: &[AgentSlot], k: u8) {
    let Some(slot) = agents.get(k as usize) else {
        return out.out_of_range();
    };
    out.print(format_args!("machine {k}"));
    if slot.present {
        agent(out, &slot.agent);
    } else {
        out.text(b": none");
    }
    out.text(b"\n");
}

// The agents, on machines and in packets, and the marked ACQUIREs.
fn counted(out: &mut Output<'_, impl Print>, state: &LockState) {
    let (agents, marked) = (agents_in(*state), marks_in(*state));
    out.print(format_args!("agents {agents}, marked {marked}\n"));
}

// The first packet that names the client.
fn named(out: &mut Output<'_, impl Print>, wire: &Wire, c: u8) {
    out.text(b"named ");
    out.client(c);
    match first_naming(*wire, ClientId(c)) {
        None => out.text(b": nowhere\n"),
        Some(index) => out.print(format_args!(": index {index}\n")),
    }
}

// How often the packet at the index has circled.
fn circled(out: &mut Output<'_, impl Print>, wire: &Wire, i: u8) {
    match wire.slots.get(i as usize) {
        Some(packet) => out.print(format_args!("index {i} circled {}\n", packet.circled)),
        None => out.out_of_range(),
    }
}

// The cluster is as it was made, with its preference.
fn fresh(out: &mut Output<'_, impl Print>, x: &Cluster) {
    let made = engine::fresh(x.preference).cluster;
    let same = same::clusters(*x, made);
    out.text(if same { b": fresh\n" } else { b": not fresh\n" });
}

fn kept(out: &mut Output<'_, impl Print>, x: &Cluster, y: &Cluster) {
    let same = same::clusters(*x, *y);
    out.text(if same {
        b": as kept\n"
    } else {
        b": not as kept\n"
    });
}

// The cluster y is the one that was kept.
pub fn shown(out: &mut Output<'_, impl Print>, x: &Cluster, y: &Cluster, s: &[u8]) {
    let Some((word, numbers)) = command(s) else {
        return out.not_understood(s);
    };
    let lock = &x.locks[0];
    match (word, numbers.as_slice()) {
        (b"fresh", &[]) => fresh(out, x),
        (b"kept", &[]) => kept(out, x, y),
        (b"preference", &[]) => out.print(format_args!("preference {}\n", x.preference)),
        (b"client", &[c]) => client(out, &lock.clients, c),
        (b"decider", &[]) => decider(out, lock.decider),
        (b"machine", &[k]) => machine(out, &lock.agents, k),
        (b"wire", &[]) => out.print(format_args!("wire {}\n", lock.wire.len)),
        (b"counts", &[]) => counted(out, lock),
        (b"named", &[c]) => named(out, &lock.wire, c),
        (b"circled", &[i]) => circled(out, &lock.wire, i),
        _ => out.not_understood(s),
    }
}
