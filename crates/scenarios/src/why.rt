// The question why a client waits, printed with its answer: `reason LOCK MACHINE/TASK`.
use by_hand::line::first_numbers;
use by_hand::print::Output;
use model::{Cluster, LockId, MachineId, Numbered, Reason, TaskId};

fn because(out: &mut Output<'_, impl Print>, r: Reason) {
    match r {
        Reason::Requested { index } => out.print(format_args!(", ACQUIRE at index {index}")),
        Reason::Granted { index } => out.print(format_args!(", GRANT at index {index}")),
        Reason::Rejected { index } => out.print(format_args!(", rejected GRANT at index {index}")),
        Reason::Queued { machine, ahead } => {
            let MachineId(k) = machine;
            out.print(format_args!(", queue on machine {k}, ahead {ahead}"));
        }
        Reason::Carried { index, ahead } => out.print(format_args!(
            ", queue in the packet at index {index}, ahead {ahead}"
        )),
        Reason::GrantLost => out.text(b", its GRANT was lost"),
    }
}

// The numbers behind the word are s.
pub fn asked(out: &mut Output<'_, impl Print>, x: &Cluster, s: &[u8]) {
    let [lock, machine, task] = first_numbers::<3>(s);
    out.text(b"reason ");
    out.text(s);
    match engine::reason(*x, LockId(lock), MachineId(machine), TaskId(task)) {
        Ok(r) => {
            out.text(b": 0");
            because(out, r);
        }
        Err(refusal) => out.print(format_args!(": {}", refusal.number())),
    }
    out.text(b"\n");
}
