// The library at work: a reader asks for lock 0, its packet reaches the decider, and the lock is drained. Prints each answer and the drain's steps.
#![tactic(auto)]

use model::{LockId, MachineId, Numbered, TaskId};
use std::io;

fn print(rt: &impl Print, n: u16) -> io::Result<()> {
    rt.println(n)
}

fn main(rt: HostRuntime) -> io::Result<()> {
    let made = engine::fresh(0);
    let asked = engine::acquire(made.cluster, LockId(0), MachineId(1), TaskId(2), 3);
    let answer = asked.answer;
    print(&rt, answer.number() as u16)?;
    let sent = engine::deliver(asked.cluster, LockId(0), 0);
    let answer = sent.answer;
    print(&rt, answer.number() as u16)?;
    let drained = engine::drain(sent.cluster, LockId(0));
    print(&rt, drained.count)
}
