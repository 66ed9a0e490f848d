// Whether two clusters are the same in all their parts, the unused slots of queues and wires and the agents that are not there among them. What is compared
// is said part by part down to a message and to a client's note; what is below is compared by the derived ==.
#![tactic(auto)]

ghost use Rattle.std.specs.Prelude.{◌≡◌, length};
ghost use Rattle.std.specs.Bool.{Decides};
ghost use Rattle.same.specs.Tests.{Tests};

use model::{ClientState, Cluster, LockState, Message, Packet, Wire};

// Two rows of one length, by a test of two of their elements.
fn rows<T, E: Fn(&T, &T) -> bool>(a: &[T], b: &[T], same: E) -> bool
    requires { (E.IsAlwaysCallable same) × (length a.now ≡ length b.now) }
    ensures { Tests E.Fn same → Decides result (a.now ≡ b.now) }
{
    for i in 0..a.len() {
        if !same(&a[i], &b[i]) {
            return false;
        }
    }
    true
}

fn messages(m: Message, n: Message) -> bool
    ensures { Decides result (m ≡ n) }
{
    match (m, n) {
        (Message::Free, Message::Free) => true,
        (
            Message::Acquire {
                client: c,
                mode: u,
                granted: a,
            },
            Message::Acquire {
                client: d,
                mode: v,
                granted: b,
            },
        ) => c == d && u == v && a == b,
        (Message::Grant { client: c, mode: u }, Message::Grant { client: d, mode: v }) => {
            c == d && u == v
        }
        (Message::Release { client: c }, Message::Release { client: d }) => c == d,
        _ => false,
    }
}

#[tactic(auto, using(crate::proofs::Equality::addresses, crate::proofs::Equality::slots))]
fn packet(p: &Packet, q: &Packet) -> bool
    ensures { Decides result (p.now ≡ q.now) }
{
    messages(p.message, q.message)
        & (p.to == q.to)
        & (p.rejected == q.rejected)
        & (p.circled == q.circled)
        & (p.carried == q.carried)
}

fn wires(v: &Wire, w: &Wire) -> bool
    ensures { Decides result (v.now ≡ w.now) }
{
    v.len == w.len && rows(&v.slots, &w.slots, packet)
}

fn client(c: &ClientState, d: &ClientState) -> bool
    ensures { Decides result (c.now ≡ d.now) }
{
    c.status == d.status && c.lost == d.lost
}

#[tactic(auto, using(crate::proofs::Equality::deciders, crate::proofs::Equality::machines))]
fn lock(s: &LockState, t: &LockState) -> bool
    ensures { Decides result (s.now ≡ t.now) }
{
    (s.decider == t.decider)
        & (s.agents == t.agents)
        & rows(&s.clients, &t.clients, client)
        & wires(&s.wire, &t.wire)
}

pub fn clusters(x: Cluster, y: Cluster) -> bool
    ensures { Decides result (x ≡ y) }
{
    x.preference == y.preference && rows(&x.locks, &y.locks, lock)
}
