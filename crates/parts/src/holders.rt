// An agent's set of holders. A client's number past the array's end is in no set.
ghost use Rattle.std.specs.Prelude.{◌≡◌, false, set, get_or};
ghost use Rattle.model.specs.States.{is_shared};
ghost use Rattle.model.specs.Asking.{joining, any_holder};

use crate::slots::put;
use model::{Agent, CLIENTS, ClientId, Mode};

pub fn set_holder(h: [bool; CLIENTS], c: ClientId, b: bool) -> [bool; CLIENTS]
    ensures { result ≡ set h c.0 b }
{
    put(h, c.0, b)
}

pub fn holds(h: [bool; CLIENTS], c: ClientId) -> bool
    ensures { result ≡ get_or h c.0 false }
{
    h.get(usize::from(c.0)).copied().unwrap_or(false)
}

pub fn any_holder(h: [bool; CLIENTS]) -> bool
    ensures { result ≡ any_holder h }
{
    h.iter().any(|&held| held)
}

// The agent with the client among its holders.
pub fn join(mut a: Agent, c: ClientId) -> Agent
    ensures { result ≡ joining a c }
{
    a.holders = set_holder(a.holders, c, true);
    a
}

pub fn is_shared(m: Mode) -> bool
    ensures { result ≡ is_shared m }
{
    m == Mode::Shared
}
