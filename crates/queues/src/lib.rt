// A queue of waiters, in the first slots of an array.
#![tactic(auto)]

ghost use Rattle.std.specs.Prelude.{◌≡◌, ◌&&◌, [], ◌∷◌, ◌++◌, ◌<◌, get_or};
ghost use Rattle.model.specs.Lists.{any, removed};
ghost use Rattle.model.specs.States.{queue_capacity, blank_waiter, queue_of, waiters, prefers_writers};
ghost use Rattle.model.specs.WellFormed.{is_client};
ghost use Rattle.model.specs.Asking.{no_room, writer_in};
ghost use Rattle.model.specs.AtMachine.{taken_off};
ghost use Rattle.laws.specs.Shapes.{CanonicalQueue};

use model::{Agent, ClientId, QUEUE_CAPACITY, Queue, Waiter};
use parts::blank::blank_waiter;
use parts::holders::is_shared;
use parts::search::first_waiter;
use parts::slots::{cut, in_use};

#[tactic(auto, using(parts::specs::Writes::queued_at))]
pub fn push(mut q: Queue, w: Waiter) -> Queue
    requires { (CanonicalQueue q) × (q.len < queue_capacity) }
    ensures { result ≡ queue_of (waiters q ++ w ∷ []) }
{
    q.slots[usize::from(q.len)] = w;
    q.len += 1;
    q
}

#[tactic(auto, using(laws::specs::Shapes::waiter_is))]
pub fn first(q: Queue) -> Waiter
    requires { (CanonicalQueue q) × (0 < q.len) }
    ensures { result ≡ get_or (waiters q) 0 blank_waiter }
{
    q.slots[0]
}

// The queue without its first waiter.
pub fn pop(q: Queue) -> Queue
    requires { (CanonicalQueue q) × (0 < q.len) }
    ensures { result ≡ queue_of (removed (waiters q) 0) }
{
    without_at(q, 0)
}

// The waiters move down by one, and w stands before them.
#[tactic(auto, using(parts::specs::Writes::fronted, parts::specs::Arrays::slid_copied))]
pub fn push_front(mut q: Queue, w: Waiter) -> Queue
    requires { (CanonicalQueue q) × (q.len < queue_capacity) }
    ensures { result ≡ queue_of (w ∷ waiters q) }
{
    let n = usize::from(q.len);
    q.slots.copy_within(0..n, 1);
    q.slots[0] = w;
    q.len += 1;
    q
}

// The client stands in the agent's queue.
#[tactic(auto, unfolding(model::specs::States::waiters))]
pub fn queued(a: Agent, c: ClientId) -> bool
    requires { CanonicalQueue a.queue }
    ensures { result ≡ any (is_client c) (waiters a.queue) }
{
    in_use(&a.queue.slots, a.queue.len)
        .iter()
        .any(|w| w.client == c)
}

// The queue without the client.
pub fn taken_off(q: Queue, c: ClientId) -> Queue
    requires { CanonicalQueue q }
    ensures { result ≡ queue_of (taken_off c (waiters q)) }
{
    match first_waiter(&q, c) {
        None => q,
        Some(i) => without_at(q, i),
    }
}

#[tactic(auto, using(parts::specs::Writes::cut_out))]
fn without_at(mut q: Queue, i: u8) -> Queue
    requires { (CanonicalQueue q) × (i < q.len) }
    ensures { result ≡ queue_of (removed (waiters q) i) }
{
    let n = q.len;
    cut(&mut q.slots, i, n, blank_waiter());
    q.len -= 1;
    q
}

// The agent's queue cannot take the client: it stands there already, or the queue is full.
#[tactic(auto, unfolding(model::specs::States::waiters))]
pub fn no_room(a: Agent, c: ClientId) -> bool
    requires { CanonicalQueue a.queue }
    ensures { result ≡ no_room a c }
{
    queued(a, c) || QUEUE_CAPACITY <= usize::from(a.queue.len)
}

// A writer in the agent's queue comes first, in a cluster with the preference p: readers do not pass it.
#[tactic(auto, unfolding(model::specs::States::waiters))]
pub fn writer_first(p: u8, a: Agent) -> bool
    requires { CanonicalQueue a.queue }
    ensures { result ≡ (prefers_writers p && writer_in a) }
{
    p == 1
        && in_use(&a.queue.slots, a.queue.len)
            .iter()
            .any(|w| !is_shared(w.mode))
}
