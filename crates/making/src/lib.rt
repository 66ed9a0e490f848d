// A cluster is made, or what was called is refused.
#![tactic(auto)]

ghost use Rattle.std.specs.Prelude.{◌≡◌, []};
ghost use Rattle.model.specs.States.{wire_of, fresh_lock, fresh_with};
ghost use Rattle.model.specs.Calls.{refusing, fresh};

use model::{
    CLIENTS, Cluster, LOCKS, LockState, MACHINES, Outcome, PREFERENCES, Refusal, WIRE_CAPACITY,
    Wire,
};
use parts::blank::{IDLE, blank_packet, no_agent, unowned};

#[tactic(auto, unfolding(model::specs::States::wire_of, model::specs::Lists::padded))]
fn empty_wire() -> Wire
    ensures { result ≡ wire_of [] }
{
    Wire {
        slots: [blank_packet(); WIRE_CAPACITY],
        len: 0,
    }
}

#[tactic(auto, unfolding(model::specs::States::fresh_lock))]
fn fresh_lock() -> LockState
    ensures { result ≡ fresh_lock }
{
    LockState {
        wire: empty_wire(),
        decider: unowned(),
        agents: [no_agent(); MACHINES],
        clients: [IDLE; CLIENTS],
    }
}

#[tactic(auto, unfolding(model::specs::States::fresh_with))]
fn fresh_with(n: u8) -> Cluster
    ensures { result ≡ fresh_with n }
{
    Cluster {
        preference: n,
        locks: [fresh_lock(); LOCKS],
    }
}

pub fn refuse_call(n: Refusal, x: Cluster) -> Outcome
    ensures { result ≡ refusing n x }
{
    Outcome {
        answer: Err(n),
        handling: None,
        cluster: x,
    }
}

// A fresh cluster, with the preference 0 for readers or 1 for writers. Any other is refused, and the cluster beside the refusal prefers readers.
#[tactic(auto, unfolding(model::specs::Calls::fresh))]
pub fn fresh(preference: u8) -> Outcome
    ensures { result ≡ fresh preference }
{
    if preference < PREFERENCES {
        Outcome {
            answer: Ok(()),
            handling: None,
            cluster: fresh_with(preference),
        }
    } else {
        refuse_call(Refusal::PreferenceRange, fresh_with(0))
    }
}
