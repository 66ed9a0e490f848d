// docs/random-runs.md, 'A step': the choice of a call.
use crate::generator::{Outputs, modulo};
use crate::profile::Profile;
use lock_calls::{can_be_lost, client_of};
use model::{Call, Cluster, LockId, LockState, MachineId, Packet, Status, TaskId, Wire};

#[derive(Clone, Copy, Drop)]
enum Kind {
    Acquire,
    Release,
    Deliver,
    Lose,
    GiveUp,
}

const KINDS: [Kind; 5] = [
    Kind::Acquire,
    Kind::Release,
    Kind::Deliver,
    Kind::Lose,
    Kind::GiveUp,
];

// The chosen arguments, needed by the call or not.
#[derive(Clone, Copy, Drop)]
pub struct Arguments {
    pub lock: LockId,
    pub machine: MachineId,
    pub task: TaskId,
    mode: u8,
    index: u8,
}

#[derive(Clone, Copy, Drop)]
pub struct Choice {
    pub call: Call,
    pub arguments: Arguments,
}

impl Arguments {
    // The call takes those that it has.
    fn choice(self, kind: Kind) -> Choice {
        let Arguments {
            lock,
            machine,
            task,
            mode,
            index,
        } = self;
        let call = match kind {
            Kind::Acquire => Call::Acquire {
                lock,
                machine,
                task,
                mode,
            },
            Kind::Release => Call::Release {
                lock,
                machine,
                task,
            },
            Kind::Deliver => Call::Deliver { lock, index },
            Kind::Lose => Call::Lose { lock, index },
            Kind::GiveUp => Call::GiveUp {
                lock,
                machine,
                task,
            },
        };
        Choice {
            call,
            arguments: self,
        }
    }
}

// Arguments in range or not.
fn wild(o: &Outputs) -> Choice {
    let arguments = Arguments {
        lock: LockId((o[3] % 10) as u8),
        machine: MachineId((o[4] % 6) as u8),
        task: TaskId((o[5] % 6) as u8),
        mode: (o[6] % 6) as u8,
        index: (o[7] % 57) as u8,
    };
    arguments.choice(KINDS[usize::from(o[2] % 5)])
}

// The first kind that fits. The page's k and u.
fn fitting_kind(p: &Profile, k: u16, u: u16, first_client: bool, status: Status) -> Kind {
    match status {
        _ if k < p.deliver => Kind::Deliver,
        _ if k >= 62 => Kind::Acquire,
        Status::Idle => Kind::Acquire,
        Status::Holding(_) if !(p.pinned && first_client) => Kind::Release,
        Status::Waiting(_) if u < p.gives_up => Kind::GiveUp,
        _ => Kind::Deliver,
    }
}

// What would be delivered may be lost instead.
fn chosen_kind(p: &Profile, o: &Outputs, first_client: bool, status: Status) -> Kind {
    let u = o[0] / 64 % 64;
    match fitting_kind(p, o[2] % 64, u, first_client, status) {
        Kind::Deliver if 63 - u < p.loses => Kind::Lose,
        kind => kind,
    }
}

// Does the call pass the packet on its way up the wire?
fn passes(p: &Profile, kind: Kind, x: &Packet) -> bool {
    match kind {
        Kind::Lose => !can_be_lost(*x),
        _ => p.delays(x),
    }
}

// The index goes up past packets that the call passes, and no further than there are slots.
fn passed(p: &Profile, kind: Kind, w: &Wire, first: u8) -> u8 {
    (first..w.len)
        .find(|i| match w.slots.get(usize::from(*i)) {
            Some(x) => !passes(p, kind, x),
            None => true,
        })
        .unwrap_or(w.len)
}

fn chosen_index(p: &Profile, kind: Kind, w: &Wire, o: &Outputs) -> u8 {
    let first = modulo(o[7], u16::from(w.len) + 1);
    if o[1] / 64 % 8 == 0 {
        first
    } else {
        passed(p, kind, w, first)
    }
}

// Arguments in range, by the state of the chosen lock.
fn ordinary(p: &Profile, s: &LockState, lock: LockId, o: &Outputs) -> Choice {
    let machine = MachineId((o[4] % 4) as u8);
    let task = TaskId((o[5] % 4) as u8);
    let client = client_of(machine, task).0;
    let kind = chosen_kind(p, o, client == 0, s.clients[usize::from(client)].status);
    let arguments = Arguments {
        lock,
        machine,
        task,
        mode: if o[6] % 64 < p.shared { 3 } else { 2 },
        index: chosen_index(p, kind, &s.wire, o),
    };
    arguments.choice(kind)
}

pub fn choose(p: &Profile, seed: u32, x: &Cluster, o: &Outputs) -> Choice {
    if o[1] % 64 < p.wild {
        return wild(o);
    }
    let lock = ((seed % 8 + u32::from(o[3] % p.locks)) % 8) as u8;
    ordinary(p, &x.locks[usize::from(lock)], LockId(lock), o)
}
