// The drain of one lock's state. Each phase makes its steps in a loop and only then hands over to the other: a call for each step
// would not fit the stack.
#![tactic(auto)]

ghost use Rattle.std.specs.Prelude.{◌≡◌, true, ◌<◌, position};
ghost use Rattle.model.specs.States.{locks};
ghost use Rattle.model.specs.WellFormed.{well_formed};
ghost use Rattle.model.specs.Drain.{drain_refused, drain};
ghost use Rattle.laws.specs.Formed.{Ready};
ghost use Rattle.planning.specs.Plans.{Plans};
ghost use Rattle.draining.specs.DrainState.{Formed, Planned, Comes, Ends, holds, noted, turn_of, turn_step};

use formed::is_well_formed;
use model::{
    ALLOWANCE, Answer, CLIENTS, ClientId, ClientState, Cluster, Drained, Handling, LOCKS, LockId,
    LockState, Refusal,
};
use parts::state::is_holding;
use planning::plan::{Plan, carry_out};
use planning::steps::{plan_deliver, plan_give_up, plan_release};

// How far the drain of one lock's state came, in a cluster with this preference: the steps that are left, and the last handling that one told.
#[derive(Clone, Copy, Drop)]
pub(crate) struct Draining {
    pub(crate) preference: u8,
    pub(crate) left: u16,
    pub(crate) told: Option<Handling>,
    pub(crate) state: LockState,
}

impl Draining {
    // Makes the step that is planned, where one is left. A refusal ends the drain.
    #[tactic(auto, using(laws::specs::Formed::ready, crate::specs::DrainState::step_spent, crate::specs::DrainState::step_made, crate::specs::DrainState::step_accepts))]
    fn step(&mut self, plan: Result<Plan, Refusal>) -> Answer
        requires formed { Formed self.old }
        requires planned { Planned self.old.preference self.old.state plan }
        ensures { Comes self.old result self.new }
    {
        if self.left == 0 {
            return Err(Refusal::NotQuiescent);
        }
        let plan = plan?;
        self.state = carry_out(&plan, &self.state);
        self.told = plan.handling.or(self.told);
        self.left -= 1;
        Ok(())
    }
}

// With an empty wire it is a client's turn: to release what it holds, or to give up, as its GRANT was lost.
#[derive(Clone, Copy, Drop)]
pub(crate) enum Turn {
    Release(ClientId),
    GiveUp(ClientId),
}

// The number of the first client that holds.
fn first_holder(clients: &[ClientState; CLIENTS]) -> Option<usize>
    ensures { result ≡ position holds clients.now }
{
    clients.iter().position(|x| is_holding(x.status))
}

// And of the first with the note of a lost GRANT.
fn first_noted(clients: &[ClientState; CLIENTS]) -> Option<usize>
    ensures { result ≡ position noted clients.now }
{
    clients.iter().position(|x| x.lost)
}

// The first holder is to release. Nobody gives up while a client holds: only then is it the turn of the first with a note, and else it is nobody's.
#[tactic(auto, using(crate::specs::DrainState::inside), unfolding(crate::specs::DrainState::turn_of))]
fn turn_of(clients: &[ClientState; CLIENTS]) -> Option<Turn>
    ensures { result ≡ turn_of clients.now }
{
    if let Some(i) = first_holder(clients) {
        return Some(Turn::Release(ClientId(i as u8)));
    }
    let i = first_noted(clients)?;
    Some(Turn::GiveUp(ClientId(i as u8)))
}

// n is the cluster's preference.
#[tactic(auto, unfolding(crate::specs::DrainState::turn_step))]
fn plan_turn(n: u8, s: &LockState, turn: Turn) -> Result<Plan, Refusal>
    requires { Ready s.now }
    ensures { Plans result s.now (turn_step n s.now turn) }
{
    match turn {
        Turn::Release(c) => plan_release(n, s, c),
        Turn::GiveUp(c) => plan_give_up(n, s, c),
    }
}

// Delivers index 0 until the wire is empty: then it is the other phase's turn. Each has made a step by then, so that fewer are left at each call.
#[cycle(deliver_phase_release_phase)]
#[tactic(auto, using(laws::specs::Formed::ready, crate::specs::DrainState::delivery_planned))]
fn deliver_phase(d: &mut Draining) -> Answer
    requires { (Formed d.old) × (0 < d.old.state.wire.len) }
    ensures { Ends d.old result d.new }
{
    while 0 < d.state.wire.len {
        let plan = plan_deliver(d.preference, &d.state, 0);
        d.step(plan)?;
    }
    release_phase(d)
}

// Takes the clients' turns until a packet is sent, or until it is nobody's turn: then the lock is quiescent.
#[cycle(deliver_phase_release_phase)]
#[tactic(auto, using(laws::specs::Formed::ready, crate::specs::DrainState::turn_planned, crate::specs::DrainState::turn_over))]
fn release_phase(d: &mut Draining) -> Answer
    requires { (Formed d.old) × (d.old.state.wire.len ≡ 0) }
    ensures { Ends d.old result d.new }
{
    while d.state.wire.len == 0 {
        let Some(turn) = turn_of(&d.state.clients) else {
            return Ok(());
        };
        let plan = plan_turn(d.preference, &d.state, turn);
        d.step(plan)?;
    }
    deliver_phase(d)
}

// The drain of a lock's state begins with the phase that has something to do.
fn drain_state(d: &mut Draining) -> Answer
    requires { Formed d.old }
    ensures { Ends d.old result d.new }
{
    if 0 < d.state.wire.len {
        deliver_phase(d)
    } else {
        release_phase(d)
    }
}

fn drain_refused(r: Refusal, x: Cluster) -> Drained
    ensures { result ≡ drain_refused r x }
{
    Drained {
        answer: Err(r),
        count: 0,
        handling: None,
        cluster: x,
    }
}

// A well-formed cluster and a lock of it: only that lock's state is drained.
#[tactic(auto, using(laws::specs::Formed::read_formed, crate::specs::DrainState::left_fits, crate::specs::DrainState::drain_ends, crate::specs::DrainState::drain_stops))]
fn drain_lock(mut x: Cluster, l: LockId) -> Drained
    requires { (well_formed x ≡ true) × (l.0 < locks) }
    ensures { result ≡ drain x l }
{
    let i = l.0 as usize;
    let mut d = Draining {
        preference: x.preference,
        left: ALLOWANCE,
        told: None,
        state: x.locks[i],
    };
    match drain_state(&mut d) {
        Ok(()) => {
            x.locks[i] = d.state;
            Drained {
                answer: Ok(()),
                count: ALLOWANCE - d.left,
                handling: d.told,
                cluster: x,
            }
        }
        Err(r) => drain_refused(r, x),
    }
}

// Drains a lock: delivers, releases and gives up until it is quiescent.
#[tactic(auto, using(crate::specs::DrainState::drain_malformed, crate::specs::DrainState::drain_range))]
pub fn drain(x: Cluster, l: LockId) -> Drained
    ensures { result ≡ drain x l }
{
    if !is_well_formed(&x) {
        return drain_refused(Refusal::Malformed, x);
    }
    if LOCKS as u8 <= l.0 {
        return drain_refused(Refusal::LockRange, x);
    }
    drain_lock(x, l)
}
