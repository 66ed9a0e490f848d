// docs/random-runs.md, 'A step' and 'Runs'.
use crate::choice::{Arguments, choose};
use crate::generator::Generator;
use crate::profile::Profile;
use lock_calls::client_of;
use model::{Call, Cluster, LockId, MACHINES, Numbered, Outcome, TASKS};
use parts::search::first_naming;
use std::io;

// A run from a cluster, made by hand or fresh: it is lent, as a cluster has 25 KB, and each step copies one as seldom as the calls allow.
#[derive(Drop)]
pub struct Run {
    // With which its lines begin.
    word: &'static str,
    seed: u32,
    profile: Profile,
    generator: Generator,
    cluster: Cluster,
    digest: u32,
    accepted: u16,
}

// The digest goes on over some bytes.
pub fn digested(h: u32, bytes: &[u8]) -> u32 {
    bytes.iter().fold(h, |h, b| digest::byte(h, *b))
}

fn perform(x: Cluster, call: Call) -> Outcome {
    match call {
        Call::Acquire {
            lock,
            machine,
            task,
            mode,
        } => engine::acquire(x, lock, machine, task, mode),
        Call::Release {
            lock,
            machine,
            task,
        } => engine::release(x, lock, machine, task),
        Call::Deliver { lock, index } => engine::deliver(x, lock, index),
        Call::Lose { lock, index } => engine::lose(x, lock, index),
        Call::GiveUp {
            lock,
            machine,
            task,
        } => engine::give_up(x, lock, machine, task),
    }
}

impl Run {
    pub fn new(
        word: &'static str,
        seed: u32,
        profile: Profile,
        generator: Generator,
        cluster: Cluster,
    ) -> Self {
        Run {
            word,
            seed,
            profile,
            generator,
            cluster,
            digest: digest::cluster(seed, cluster),
            accepted: 0,
        }
    }

    // Item 1: the lock of the call is drained.
    fn drain(&mut self, lock: LockId) {
        let d = engine::drain(self.cluster, lock);
        let [low, high] = d.count.to_le_bytes();
        let h = digested(self.digest, &[4, d.answer.number()]);
        let h = digested(digest::handling(h, d.handling), &[low, high]);
        self.digest = digest::cluster(h, d.cluster);
        if self.seed / 16 % 2 == 1 {
            self.cluster = d.cluster;
        }
    }

    // Item 2: the call is made.
    fn call(&mut self, call: Call) {
        let o = perform(self.cluster, call);
        let h = digested(self.digest, &[call.kind(), o.answer.number()]);
        self.digest = digest::handling(h, o.handling);
        self.cluster = o.cluster;
        if o.answer.is_ok() {
            self.accepted = self.accepted.wrapping_add(1);
        }
    }

    // Item 3: why the chosen client waits.
    fn ask(&mut self, a: &Arguments) {
        let r = engine::reason(self.cluster, a.lock, a.machine, a.task);
        self.digest = digest::reason(self.digest, r);
    }

    // Item 4: which packet names the chosen client first, where lock, machine and task are in range.
    fn search(&mut self, a: &Arguments) {
        if usize::from(a.machine.0) < MACHINES && usize::from(a.task.0) < TASKS {
            if let Some(s) = self.cluster.locks.get(usize::from(a.lock.0)) {
                let found = first_naming(s.wire, client_of(a.machine, a.task));
                self.digest = digest::found(self.digest, found);
            }
        }
    }

    // Step n: the call is chosen before the drain.
    fn step(&mut self, n: u16) {
        let o = self.generator.eight_outputs();
        let c = choose(&self.profile, self.seed, &self.cluster, &o);
        if o[0] % 64 == 0 {
            self.drain(c.arguments.lock);
        }
        self.call(c.call);
        self.ask(&c.arguments);
        self.search(&c.arguments);
        // item 5
        if n % 16 == 0 {
            self.digest = digest::cluster(self.digest, self.cluster);
        }
    }

    // All steps, with a line after each 512, and one at the end.
    pub fn write(&mut self, rt: &impl Print) -> io::Result<()> {
        let steps = self.profile.steps;
        for n in 1..=steps {
            self.step(n);
            if n % 512 == 0 && n < steps {
                println!(rt;
                    "{} {} step {} digest {}",
                    self.word, self.seed, n, self.digest
                )?;
            }
        }
        println!(rt;
            "{} {} steps {} accepted {} digest {}",
            self.word, self.seed, steps, self.accepted, self.digest
        )
    }
}
