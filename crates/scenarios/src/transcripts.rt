// A transcript, gathered record by record and run on the cluster: `record ..` and `replay`.
use crate::call::call_of;
use crate::handlings;
use arrayvec::ArrayVec;
use by_hand::line::parted;
use by_hand::print::Output;
use model::{Call, Cluster};
use transcript::run;

// Room for sixteen records.
pub const ROOM: usize = 128;

// One byte more than a transcript may have.
const TOO_LONG: usize = 65536;

fn put(out: &mut Output<'_, impl Print>, records: &mut ArrayVec<u8, ROOM>, record: &[u8]) {
    for b in record {
        if records.try_push(*b).is_err() {
            out.out_of_range();
        }
    }
}

// Appends the record of a call: its length, its kind, and the call's numbers.
fn recorded(out: &mut Output<'_, impl Print>, records: &mut ArrayVec<u8, ROOM>, call: Call) {
    match call {
        Call::Acquire {
            lock,
            machine,
            task,
            mode,
        } => put(out, records, &[8, 0, 1, 0, lock.0, machine.0, task.0, mode]),
        Call::Release {
            lock,
            machine,
            task,
        } => put(out, records, &[7, 0, 2, 0, lock.0, machine.0, task.0]),
        Call::Deliver { lock, index } => put(out, records, &[6, 0, 3, 0, lock.0, index]),
        Call::Lose { lock, index } => put(out, records, &[6, 0, 6, 0, lock.0, index]),
        Call::GiveUp {
            lock,
            machine,
            task,
        } => put(out, records, &[7, 0, 7, 0, lock.0, machine.0, task.0]),
    }
}

// `bad`, and no numbers.
fn is_bad(s: &[u8]) -> bool {
    let (word, rest) = parted(s);
    word == b"bad".as_slice() && !rest.iter().any(|b| b.is_ascii_digit())
}

// Appends the record that s says, of a call or of no kind.
pub fn record(out: &mut Output<'_, impl Print>, records: &mut ArrayVec<u8, ROOM>, s: &[u8]) {
    match call_of(s) {
        Some(call) => recorded(out, records, call),
        None if is_bad(s) => put(out, records, &[4, 0, 0, 0]),
        None => out.not_understood(s),
    }
}

fn run_on(out: &mut Output<'_, impl Print>, x: &mut Cluster, bytes: &[u8]) {
    let r = run::replay(*x, bytes);
    *x = r.cluster;
    out.text(b": ");
    out.answer(r.answer);
    out.print(format_args!(" records {}", r.records));
    handlings::told(out, r.handling);
    out.text(b"\n");
}

// Runs the records, or, where something follows the word, a transcript that is too long.
pub fn replayed(out: &mut Output<'_, impl Print>, x: &mut Cluster, records: &[u8], s: &[u8]) {
    if s.is_empty() {
        out.text(b"replay");
        run_on(out, x, records);
    } else {
        out.text(b"replay long");
        run_on(out, x, &[0; TOO_LONG]);
    }
}
