// The parts of a lock's state read and written.
ghost use Rattle.std.specs.Prelude.{◌≡◌, set, get_or};
ghost use Rattle.model.specs.States.{no_agent, idle, is_waiting};
ghost use Rattle.model.specs.Calls.{is_holding};

use crate::blank::{IDLE, no_agent};
use crate::slots::put;
use model::{AgentSlot, CLIENTS, ClientId, ClientState, MACHINES, MachineId, Status};

pub fn agent_at(a: &[AgentSlot; MACHINES], k: MachineId) -> AgentSlot
    ensures { result ≡ get_or a.now k.0 no_agent }
{
    a.get(usize::from(k.0)).copied().unwrap_or_else(no_agent)
}

pub fn put_agent(a: [AgentSlot; MACHINES], k: MachineId, x: AgentSlot) -> [AgentSlot; MACHINES]
    ensures { result ≡ set a k.0 x }
{
    put(a, k.0, x)
}

fn client_at(a: &[ClientState; CLIENTS], c: ClientId) -> ClientState
    ensures { result ≡ get_or a.now c.0 idle }
{
    a.get(usize::from(c.0)).copied().unwrap_or(IDLE)
}

pub fn status_at(a: &[ClientState; CLIENTS], c: ClientId) -> Status
    ensures { result ≡ (get_or a.now c.0 idle).status }
{
    client_at(a, c).status
}

// Whether it has the note of a lost GRANT.
pub fn note_at(a: &[ClientState; CLIENTS], c: ClientId) -> bool
    ensures { result ≡ (get_or a.now c.0 idle).lost }
{
    client_at(a, c).lost
}

pub fn put_client(
    a: [ClientState; CLIENTS],
    c: ClientId,
    status: Status,
    lost: bool,
) -> [ClientState; CLIENTS]
    ensures { result ≡ set a c.0 (record { status = status; lost = lost }) }
{
    put(a, c.0, ClientState { status, lost })
}

pub fn is_holding(status: Status) -> bool
    ensures { result ≡ is_holding status }
{
    matches!(status, Status::Holding(_))
}

pub fn is_waiting(status: Status) -> bool
    ensures { result ≡ is_waiting status }
{
    matches!(status, Status::Waiting(_))
}
