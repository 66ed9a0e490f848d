// A record's line, and the last line, in JSON.
use counts::{agents_in, marks_in};
use engine::drain;
use listing::Lines;
use lock_calls::{client_in_range, lock_of};
use model::{
    Answer, Call, Cluster, Handling, LOCKS, LockId, LockState, MachineId, Numbered, Outcome,
    Refusal, Replayed, TaskId,
};
use parts::search::first_naming;
use state_json::{put_field, put_list, put_optional, put_state};

fn put_client(lines: &mut Lines, kind: &[u8], l: LockId, m: MachineId, t: TaskId) {
    lines.text(kind);
    put_field(lines, b",\"lock\":", l.0 as u16);
    put_field(lines, b",\"machine\":", m.0 as u16);
    put_field(lines, b",\"task\":", t.0 as u16);
}

fn put_packet(lines: &mut Lines, kind: &[u8], l: LockId, index: u8) {
    lines.text(kind);
    put_field(lines, b",\"lock\":", l.0 as u16);
    put_field(lines, b",\"index\":", index as u16);
}

// The record's kind and its fields, as they stand in it.
fn put_call(lines: &mut Lines, c: Call) {
    match c {
        Call::Acquire {
            lock,
            machine,
            task,
            mode,
        } => {
            put_client(lines, b",\"kind\":\"acquire\"", lock, machine, task);
            put_field(lines, b",\"mode\":", mode as u16);
        }
        Call::Release {
            lock,
            machine,
            task,
        } => put_client(lines, b",\"kind\":\"release\"", lock, machine, task),
        Call::Deliver { lock, index } => {
            put_packet(lines, b",\"kind\":\"deliver\"", lock, index)
        }
        Call::Lose { lock, index } => put_packet(lines, b",\"kind\":\"lose\"", lock, index),
        Call::GiveUp {
            lock,
            machine,
            task,
        } => put_client(lines, b",\"kind\":\"give up\"", lock, machine, task),
    }
}

// Which packet names the client first, on the lock's wire.
fn named_on(x: &Cluster, l: LockId, m: MachineId, t: TaskId) -> Option<u8> {
    let s = x.locks.get(l.0 as usize)?;
    first_naming(s.wire, client_in_range(m, t).ok()?)
}

// The packet for which an acquire was refused as its client is still named.
fn put_named(lines: &mut Lines, c: Call, o: &Outcome) {
    if let Call::Acquire {
        lock,
        machine,
        task,
        mode: _,
    } = c
    {
        let named = match o.answer {
            Err(Refusal::StillNamed) => named_on(&o.cluster, lock, machine, task),
            _ => None,
        };
        put_optional(lines, b",\"named\":", named);
    }
}

// What a machine made of the request.
fn put_handling(lines: &mut Lines, h: Option<Handling>) {
    let told: &[u8] = match h {
        None => b"null",
        Some(Handling::NoAgent) => b"\"no agent\"",
        Some(Handling::NotHolder) => b"\"not a holder\"",
        Some(Handling::Taken) => b"\"taken\"",
    };
    lines.text(b",\"handling\":");
    lines.text(told);
}

fn put_counts(lines: &mut Lines, s: &LockState) {
    put_field(lines, b",\"counts\":{\"agents\":", agents_in(*s) as u16);
    put_field(lines, b",\"marked\":", marks_in(*s) as u16);
    lines.text(b"}");
}

// The lock's state, and what is counted in it.
fn put_lock(lines: &mut Lines, x: &Cluster, l: LockId) {
    match x.locks.get(l.0 as usize) {
        Some(s) => {
            put_state(lines, s);
            put_counts(lines, s);
        }
        None => lines.text(b"null,\"counts\":null"),
    }
}

// The line of the record with number n, whose call gave the outcome.
pub fn put_record(lines: &mut Lines, n: u16, c: Call, o: &Outcome) {
    put_field(lines, b"{\"n\":", n);
    put_call(lines, c);
    put_field(lines, b",\"answer\":", o.answer.number() as u16);
    put_named(lines, c, o);
    put_handling(lines, o.handling);
    put_field(lines, b",\"preference\":", o.cluster.preference as u16);
    lines.text(b",\"state\":");
    put_lock(lines, &o.cluster, lock_of(c));
    lines.text(b"}\n");
}

fn put_drain(lines: &mut Lines, x: &Cluster, l: u8) {
    let d = drain(*x, LockId(l));
    put_field(lines, b"{\"lock\":", l as u16);
    put_field(lines, b",\"answer\":", d.answer.number() as u16);
    put_field(lines, b",\"count\":", d.count);
    put_handling(lines, d.handling);
    lines.text(b"}");
}

// How the run ended, by its answer.
fn put_ending(lines: &mut Lines, answer: Answer) {
    let end: &[u8] = match answer {
        Ok(()) => b"{\"end\":\"end\"",
        Err(Refusal::TranscriptLength) => b"{\"end\":\"too long\"",
        Err(Refusal::PreferenceRange) => b"{\"end\":\"bad preference\"",
        Err(_) => b"{\"end\":\"bad record\"",
    };
    lines.text(end);
}

// What the run came to, by its number and in counts; and how a drain of each lock would end.
pub fn put_end(lines: &mut Lines, r: &Replayed) {
    put_ending(lines, r.answer);
    put_field(lines, b",\"answer\":", r.answer.number() as u16);
    put_field(lines, b",\"records\":", r.records);
    put_handling(lines, r.handling);
    put_field(lines, b",\"preference\":", r.cluster.preference as u16);
    lines.text(b",\"drains\":");
    put_list(
        lines,
        0..LOCKS as u8,
        |lines, l| put_drain(lines, &r.cluster, l),
    );
    lines.text(b"}\n");
}
