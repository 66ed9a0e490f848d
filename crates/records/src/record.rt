// Record reading over bytes and a position.
ghost use Rattle.std.specs.Prelude.{◌≡◌, ◌<◌, length};
ghost use Rattle.model.specs.Transcripts.{byte_at, short, acquire_at, release_at, deliver_at, lose_at, give_up_at, whole_record, read_record};

use model::{Call, LockId, MachineId, Reading, TaskId};

// 0 past the end: what a cut record lacks is read as well, and whole_record refuses it.
fn byte_at(bytes: &[u8], i: usize) -> u8
    ensures { result ≡ byte_at bytes.now i }
{
    bytes.get(i).copied().unwrap_or(0)
}

// Two bytes, little-endian.
fn short_at(bytes: &[u8], i: usize) -> usize
    requires { i < length bytes.now }
    ensures { result ≡ short bytes.now i }
{
    let low = usize::from(byte_at(bytes, i));
    let high = usize::from(byte_at(bytes, i + 1));
    low + 256 * high
}

fn acquire_at(bytes: &[u8], at: usize) -> Call
    requires { at < length bytes.now }
    ensures { result ≡ acquire_at bytes.now at }
{
    Call::Acquire {
        lock: LockId(byte_at(bytes, at + 4)),
        machine: MachineId(byte_at(bytes, at + 5)),
        task: TaskId(byte_at(bytes, at + 6)),
        mode: byte_at(bytes, at + 7),
    }
}

fn release_at(bytes: &[u8], at: usize) -> Call
    requires { at < length bytes.now }
    ensures { result ≡ release_at bytes.now at }
{
    Call::Release {
        lock: LockId(byte_at(bytes, at + 4)),
        machine: MachineId(byte_at(bytes, at + 5)),
        task: TaskId(byte_at(bytes, at + 6)),
    }
}

fn deliver_at(bytes: &[u8], at: usize) -> Call
    requires { at < length bytes.now }
    ensures { result ≡ deliver_at bytes.now at }
{
    Call::Deliver {
        lock: LockId(byte_at(bytes, at + 4)),
        index: byte_at(bytes, at + 5),
    }
}

fn lose_at(bytes: &[u8], at: usize) -> Call
    requires { at < length bytes.now }
    ensures { result ≡ lose_at bytes.now at }
{
    Call::Lose {
        lock: LockId(byte_at(bytes, at + 4)),
        index: byte_at(bytes, at + 5),
    }
}

fn give_up_at(bytes: &[u8], at: usize) -> Call
    requires { at < length bytes.now }
    ensures { result ≡ give_up_at bytes.now at }
{
    Call::GiveUp {
        lock: LockId(byte_at(bytes, at + 4)),
        machine: MachineId(byte_at(bytes, at + 5)),
        task: TaskId(byte_at(bytes, at + 6)),
    }
}

// The call of a record of n bytes, where its length says n and so many are left.
fn whole_record(n: usize, bytes: &[u8], at: usize, call: Call) -> Reading
    requires { at < length bytes.now }
    ensures { result ≡ whole_record n bytes.now at call }
{
    if short_at(bytes, at) == n && n <= bytes.len() - at {
        Reading::Record { call, next: at + n }
    } else {
        Reading::Bad
    }
}

// What stands at a position; behind the last byte, the end.
#[tactic(auto, unfolding(model::specs::Transcripts::read_record))]
pub fn read_record(bytes: &[u8], at: usize) -> Reading
    ensures { result ≡ read_record bytes.now at }
{
    let len = bytes.len();
    if len <= at {
        return Reading::End;
    }
    if len - at < 4 {
        return Reading::Bad;
    }
    // A kind, its length and its call.
    match short_at(bytes, at + 2) {
        1 => whole_record(8, bytes, at, acquire_at(bytes, at)),
        2 => whole_record(7, bytes, at, release_at(bytes, at)),
        3 => whole_record(6, bytes, at, deliver_at(bytes, at)),
        6 => whole_record(6, bytes, at, lose_at(bytes, at)),
        7 => whole_record(7, bytes, at, give_up_at(bytes, at)),
        _ => Reading::Bad,
    }
}
