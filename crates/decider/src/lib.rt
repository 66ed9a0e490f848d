// Deliveries at the decider. Parameters of a rule: v the site, p the packet, c the client, m its mode, k the owner's machine, a the agent.
// In a contract a name is the model's; `verdict_of` (rules/specs/Effects.antt) reads what a rule gives as the model's Verdict.
#![tactic(auto)]

ghost use Rattle.std.specs.Prelude.{◌≡◌, true, ◌==◌};
ghost use Rattle.model.specs.AtDecider.{sent_on, to_owner, decides_release, grants_with, grants_first, may_share, shares, rejected_to, noting, decides_acquire};
ghost use Rattle.model.specs.AtDecider.{decides_free, decides_grant, at_decider};
ghost use Rattle.laws.specs.Shapes.{CanonicalQueue};
ghost use Rattle.rules.specs.Effects.{verdict_of};

use model::{Address, Agent, ClientId, Decider, MachineId, Message, Mode, Owner, Packet, Site};
use parts::blank::{carrying, new_agent, plain_packet, resent, unowned};
use parts::holders::is_shared;
use queues::writer_first;
use rules::effect::{Effect, Sends, doing, sending};
use rules::leaving::machine_of;
use rules::site::with_decider;

// The decider may grant the request beside the holders: lock and request are both shared, and it knows of no writer.
#[tactic(auto, unfolding(model::specs::AtDecider::may_share))]
fn may_share(v: Site, m: Mode) -> bool
    ensures { result ≡ may_share v m }
{
    matches!(v.decider.owner, Owner::Owned(Mode::Shared, _)) && is_shared(m) && !v.decider.writer
}

fn sent_on(p: Packet, k: MachineId) -> Packet
    ensures { result ≡ sent_on p k }
{
    resent(p, Address::Machine(k), p.rejected)
}

fn rejected_to(p: Packet, k: MachineId) -> Packet
    ensures { result ≡ rejected_to p k }
{
    resent(p, Address::Machine(k), true)
}

#[tactic(auto, unfolding(model::specs::AtDecider::to_owner))]
fn to_owner(v: Site, p: Packet) -> Option<Effect>
    ensures { verdict_of result ≡ to_owner v.decider.owner v p }
{
    let Owner::Owned(_, k) = v.decider.owner else {
        return None;
    };
    sending(v, sent_on(p, k))
}

// At a free lock a RELEASE goes to the wire's end, and comes again.
#[tactic(auto, unfolding(model::specs::AtDecider::decides_release))]
fn decides_release(v: Site, p: Packet) -> Option<Effect>
    ensures { verdict_of result ≡ decides_release v.decider.owner v p }
{
    match v.decider.owner {
        Owner::Free => sending(v, resent(p, Address::Decider, p.rejected)),
        Owner::Owned(_, k) => sending(v, sent_on(p, k)),
    }
}

// The client's machine becomes the owner, and gets the agent a with the GRANT; writer: one is known to wait.
fn grants_with(v: Site, c: ClientId, m: Mode, a: Agent, writer: bool) -> Option<Effect>
    ensures { verdict_of result ≡ grants_with v c m a writer }
{
    let k = machine_of(c);
    let d = Decider {
        owner: Owner::Owned(m, k),
        incarnation: 0,
        writer,
    };
    let grant = Message::Grant { client: c, mode: m };
    sending(with_decider(v, d), carrying(grant, Address::Machine(k), a))
}

fn grants_first(v: Site, c: ClientId, m: Mode) -> Option<Effect>
    ensures { verdict_of result ≡ grants_first v c m }
{
    grants_with(v, c, m, new_agent(m), v.decider.writer)
}

// The GRANT goes out before the marked ACQUIRE.
fn shares(mut v: Site, c: ClientId, k: MachineId) -> Option<Effect>
    ensures { verdict_of result ≡ shares v c k }
{
    v.decider.incarnation = std::num::wrapping_add_u8(v.decider.incarnation, 1);
    let grant = plain_packet(
        Message::Grant {
            client: c,
            mode: Mode::Shared,
        },
        Address::Machine(machine_of(c)),
    );
    let request = plain_packet(
        Message::Acquire {
            client: c,
            mode: Mode::Shared,
            granted: true,
        },
        Address::Machine(k),
    );
    doing(v, Sends::Two(grant, request))
}

// The site once an unmarked request in mode m is sent on: the decider knows of a writer then, where these are preferred.
fn noting(mut v: Site, m: Mode) -> Site
    ensures { result ≡ noting v m }
{
    v.decider.writer |= v.preference == 1 && !is_shared(m);
    v
}

// A marked request has been granted, and is never granted again.
#[tactic(auto, using(crate::specs::Marked::marked_sent), unfolding(model::specs::AtDecider::decides_acquire))]
fn decides_acquire(v: Site, p: Packet, c: ClientId, m: Mode, granted: bool) -> Option<Effect>
    ensures { verdict_of result ≡ decides_acquire v.decider.owner v p c m granted }
{
    if granted {
        return to_owner(v, p);
    }
    match v.decider.owner {
        Owner::Free => grants_first(v, c, m),
        Owner::Owned(_, k) if may_share(v, m) => shares(v, c, k),
        Owner::Owned(_, _) => to_owner(noting(v, m), p),
    }
}

// The incarnation inside the packet is the decider's.
fn is_current(d: Decider, p: Packet) -> bool
    ensures { result ≡ (p.carried.agent.incarnation == d.incarnation) }
{
    p.carried.agent.incarnation == d.incarnation
}

#[tactic(auto, unfolding(model::specs::AtDecider::decides_free))]
fn decides_free(v: Site, p: Packet) -> Option<Effect>
    ensures { verdict_of result ≡ decides_free v.decider.owner v p }
{
    let Owner::Owned(_, k) = v.decider.owner else {
        return None;
    };
    if !is_current(v.decider, p) {
        return sending(v, rejected_to(p, k));
    }
    doing(with_decider(v, unowned()), Sends::Nothing)
}

// A GRANT with its agent.
#[tactic(auto, unfolding(model::specs::AtDecider::decides_grant))]
fn decides_agent(v: Site, p: Packet, c: ClientId, m: Mode) -> Option<Effect>
    requires { CanonicalQueue p.carried.agent.queue }
    ensures { verdict_of result ≡ decides_grant true v.decider.owner v p c m }
{
    let Owner::Owned(_, k) = v.decider.owner else {
        return None;
    };
    if !is_current(v.decider, p) {
        return sending(v, rejected_to(p, k));
    }
    let mut a = p.carried.agent;
    let writer = writer_first(v.preference, a);
    a.incarnation = 0;
    grants_with(v, c, m, a, writer)
}

#[tactic(auto, unfolding(model::specs::AtDecider::decides_grant))]
fn decides_grant(v: Site, p: Packet, c: ClientId, m: Mode) -> Option<Effect>
    requires { CanonicalQueue p.carried.agent.queue }
    ensures { verdict_of result ≡ decides_grant p.carried.present v.decider.owner v p c m }
{
    if p.carried.present {
        decides_agent(v, p, c, m)
    } else {
        sending(v, sent_on(p, machine_of(c)))
    }
}

#[tactic(auto, unfolding(model::specs::AtDecider::decides, model::specs::AtDecider::at_decider))]
pub fn at_decider(v: Site, p: Packet) -> Option<Effect>
    requires { CanonicalQueue p.carried.agent.queue }
    ensures { verdict_of result ≡ at_decider v p }
{
    match p.message {
        Message::Free => decides_free(v, p),
        Message::Acquire {
            client,
            mode,
            granted,
        } => decides_acquire(v, p, client, mode, granted),
        Message::Grant { client, mode } => decides_grant(v, p, client, mode),
        Message::Release { .. } => decides_release(v, p),
    }
}
