// docs/random-runs.md, 'A step': the table of profiles.
ghost use Rattle.std.specs.Prelude.{◌<◌};

use model::{Address, Message, Packet};

// The packets that a profile may delay: the page's G, R, Q, A and N.
#[derive(Clone, Copy, PartialEq, Eq, Drop)]
enum Delayed {
    Granted,
    Requests,
    Asking,
    Agents,
    Grants,
}

use Delayed::{Agents, Asking, Granted, Grants, Requests};

#[derive(Clone, Copy, Drop)]
pub struct Profile {
    pub steps: u16,
    pub locks: u16,
    pub shared: u16,
    pub deliver: u16,
    pub wild: u16,
    delays: &'static [Delayed],
    pub pinned: bool,
    pub gives_up: u16,
    pub loses: u16,
    ghost some_locks: { 0 < locks },
}

fn row(
    steps: u16,
    locks: u16,
    shared: u16,
    deliver: u16,
    wild: u16,
    delays: &'static [Delayed],
) -> Profile
    requires { 0 < locks }
{
    Profile {
        steps,
        locks,
        shared,
        deliver,
        wild,
        delays,
        pinned: false,
        gives_up: 0,
        loses: 0,
    }
}

// The profile of a run.
pub fn numbered(n: u32) -> Profile {
    match n {
        0 => row(512, 1, 16, 24, 1, &[]),
        1 => row(512, 1, 60, 32, 1, &[Granted]),
        2 => row(512, 2, 40, 32, 1, &[Agents]),
        3 => row(512, 1, 62, 24, 1, &[Granted, Agents]),
        4 => row(512, 8, 32, 24, 1, &[]).losing(4, 8),
        5 => row(512, 2, 32, 32, 32, &[]),
        6 => row(3072, 1, 64, 32, 1, &[]).pinning(),
        7 => row(512, 1, 32, 32, 1, &[Requests]),
        8 => row(512, 1, 48, 40, 1, &[Granted]),
        9 => row(512, 1, 48, 28, 1, &[Grants]).losing(8, 16),
        10 => row(1024, 1, 64, 24, 1, &[Granted, Agents, Grants]).losing(63, 0),
        11 => row(512, 2, 32, 40, 1, &[Asking]).losing(48, 0),
        _ => row(512, 1, 40, 28, 1, &[]).losing(8, 16),
    }
}

pub fn hand_made() -> Profile {
    row(16, 2, 32, 32, 2, &[]).losing(8, 16)
}

fn kind(x: &Packet) -> Option<Delayed> {
    if x.carried.present {
        return Some(Agents);
    }
    match (x.message, x.to) {
        (Message::Acquire { granted: true, .. }, _) => Some(Granted),
        (Message::Acquire { .. }, Address::Machine(_)) => Some(Requests),
        (Message::Acquire { .. }, Address::Decider) => Some(Asking),
        (Message::Grant { .. }, _) => Some(Grants),
        (Message::Release { .. } | Message::Free, _) => None,
    }
}

impl Profile {
    fn pinning(mut self) -> Self {
        self.pinned = true;
        self
    }

    fn losing(mut self, gives_up: u16, loses: u16) -> Self {
        self.gives_up = gives_up;
        self.loses = loses;
        self
    }

    // Does it delay the packet?
    pub fn delays(&self, x: &Packet) -> bool {
        kind(x).is_some_and(|d| self.delays.contains(&d))
    }
}
