// What a step looks at and may write, of one machine and one client.
ghost use Rattle.std.specs.Prelude.{◌≡◌};
ghost use Rattle.model.specs.Changes.{site_of, with_decider, with_slot, with_status, with_note};

use model::{AgentSlot, ClientId, Decider, LockState, MachineId, Site, Status};
use parts::state::{agent_at, note_at, status_at};

// n is the cluster's preference.
pub fn site_of(n: u8, s: &LockState, k: MachineId, c: ClientId) -> Site
    ensures { result ≡ site_of n s.now k c }
{
    Site {
        preference: n,
        decider: s.decider,
        slot: agent_at(&s.agents, k),
        status: status_at(&s.clients, c),
        lost: note_at(&s.clients, c),
    }
}

// ---- the site with one part written
pub fn with_decider(v: Site, decider: Decider) -> Site
    ensures { result ≡ with_decider v decider }
{
    Site { decider, ..v }
}

pub fn with_slot(v: Site, slot: AgentSlot) -> Site
    ensures { result ≡ with_slot v slot }
{
    Site { slot, ..v }
}

// A status that is written has no note.
pub fn with_status(v: Site, status: Status) -> Site
    ensures { result ≡ with_status v status }
{
    Site {
        status,
        lost: false,
        ..v
    }
}

pub fn with_note(v: Site, lost: bool) -> Site
    ensures { result ≡ with_note v lost }
{
    Site { lost, ..v }
}
