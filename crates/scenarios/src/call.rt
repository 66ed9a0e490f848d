// A call, printed with its answer. After a refusal the line says whether the whole cluster is as it was.
use crate::handlings;
use by_hand::line::{command, first_numbers, parted};
use by_hand::print::Output;
use model::{Answer, Call, Cluster, Drained, Handling, LockId, MachineId, Outcome, TaskId};

// What a call gives beside the cluster; of a drain, its steps too.
#[derive(Clone, Copy, Drop)]
struct Done {
    answer: Answer,
    handling: Option<Handling>,
    steps: Option<u16>,
}

impl Done {
    fn is_accepted(self) -> bool {
        self.answer.is_ok()
    }
}

// How a call's line is made: the text and the answer, with the handling behind it or not; or the answer alone behind a word, in the line of a bound.
#[derive(Clone, Copy, Drop)]
pub enum Line {
    Answered,
    Handled,
    Inside,
    Outside,
}

// The call that the text says.
pub fn call_of(s: &[u8]) -> Option<Call> {
    let (word, numbers) = command(s)?;
    match (word, numbers.as_slice()) {
        (b"acquire", &[l, k, t, mode]) => Some(Call::Acquire {
            lock: LockId(l),
            machine: MachineId(k),
            task: TaskId(t),
            mode,
        }),
        (b"release", &[l, k, t]) => Some(Call::Release {
            lock: LockId(l),
            machine: MachineId(k),
            task: TaskId(t),
        }),
        (b"deliver", &[l, index]) => Some(Call::Deliver {
            lock: LockId(l),
            index,
        }),
        (b"lose", &[l, index]) => Some(Call::Lose {
            lock: LockId(l),
            index,
        }),
        (b"give-up", &[l, k, t]) => Some(Call::GiveUp {
            lock: LockId(l),
            machine: MachineId(k),
            task: TaskId(t),
        }),
        _ => None,
    }
}

// The lock that the text says to drain.
fn drain_of(s: &[u8]) -> Option<LockId> {
    let (word, numbers) = command(s)?;
    match (word, numbers.as_slice()) {
        (b"drain", &[l]) => Some(LockId(l)),
        _ => None,
    }
}

fn performed(x: &mut Cluster, call: Call) -> Done {
    let Outcome {
        answer,
        handling,
        cluster,
    } = engine::perform(call, *x);
    *x = cluster;
    Done {
        answer,
        handling,
        steps: None,
    }
}

fn drained(x: &mut Cluster, lock: LockId) -> Done {
    let Drained {
        answer,
        count,
        handling,
        cluster,
    } = engine::drain(*x, lock);
    *x = cluster;
    Done {
        answer,
        handling,
        steps: Some(count),
    }
}

// Makes the call or the drain that the text says, if it says one.
fn make(x: &mut Cluster, s: &[u8]) -> Option<Done> {
    match call_of(s) {
        Some(call) => Some(performed(x, call)),
        None => Some(drained(x, drain_of(s)?)),
    }
}

fn answered(out: &mut Output<'_, impl Print>, done: Done) {
    out.answer(done.answer);
    if let Some(steps) = done.steps {
        out.print(format_args!(" steps {steps}"));
    }
}

// Makes the call that s says, and prints its line.
pub fn called(out: &mut Output<'_, impl Print>, x: &mut Cluster, s: &[u8], line: Line) {
    let before = *x;
    let Some(done) = make(x, s) else {
        return out.not_understood(s);
    };
    match line {
        Line::Answered | Line::Handled => {
            out.text(s);
            out.text(b": ");
        }
        Line::Inside => out.text(b": inside "),
        Line::Outside => out.text(b", outside "),
    }
    answered(out, done);
    if !done.is_accepted() {
        let same = same::clusters(before, *x);
        out.text(if same { b" unchanged" } else { b" CHANGED" });
    }
    if let Line::Handled = line {
        handlings::told(out, done.handling);
    }
    if !matches!(line, Line::Inside) {
        out.text(b"\n");
    }
}

// The same where the cluster that the call gives is not kept. The copy is made here: each caller's would take a cluster's room on the stack during a drain.
pub fn tried(out: &mut Output<'_, impl Print>, x: &Cluster, s: &[u8], line: Line) {
    let mut y = *x;
    called(out, &mut y, s, line);
}

// The text s says how often, and then a call: prints how many of these were accepted.
pub fn repeated(out: &mut Output<'_, impl Print>, x: &mut Cluster, s: &[u8]) {
    let [times] = first_numbers::<1>(s);
    let (_, call) = parted(s);
    let mut accepted: u8 = 0;
    for _i in 0..times {
        if make(x, call).is_some_and(|done| done.is_accepted()) {
            accepted += 1;
        }
    }
    out.text(b"times ");
    out.text(s);
    out.print(format_args!(": accepted {accepted}\n"));
}
