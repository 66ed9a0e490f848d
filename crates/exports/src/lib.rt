// What the benchmark in bench/ links: each function runs a transcript, or repeats a call on the cluster that it leads to, and answers a number.
#![tactic(auto)]

ghost use Rattle.std.specs.Prelude.{◌≡◌, ◌+◌, ◌*◌, ◌%◌, ◌^◌};
ghost use Rattle.model.specs.Calls.{fresh};
ghost use Rattle.model.specs.Drain.{drain};
ghost use Rattle.model.specs.Transcripts.{replay};
ghost use Rattle.digest.specs.Bytes.{digest_of, cluster_bytes};
ghost use Rattle.exports.specs.Counts.{accepted_one, accepted_calls, answered};

use model::{Answer, Cluster, LockId, MachineId, Numbered, Reading, TaskId};

// The digest of the cluster that the transcript leads to.
#[unsafe(no_mangle)]
pub extern "C" fn domezatsy_digest(bytes: &[u8]) -> u32
    ensures { result ≡ digest_of 0 (cluster_bytes (replay (fresh 0).cluster bytes.now).cluster) }
{
    let r = transcript::run::replay(engine::fresh(0).cluster, bytes);
    digest::cluster(0, r.cluster)
}

// Runs the transcript from a fresh cluster so many times: its records in all.
#[unsafe(no_mangle)]
pub extern "C" fn domezatsy_replays(bytes: &[u8], times: u32) -> u32
    ensures { result ≡ (times * (replay (fresh 0).cluster bytes.now).records) % 2 ^ 32 }
{
    let mut records: u32 = 0;
    for _ in 0..times {
        let r = transcript::run::replay(engine::fresh(0).cluster, bytes);
        records = records.wrapping_add(u32::from(r.records));
    }
    records
}

fn accepted_one(a: Answer) -> u32
    ensures { result ≡ accepted_one a }
{
    match a {
        Ok(()) => 1,
        Err(_) => 0,
    }
}

// Makes each record's call by the public call, which tests the whole cluster: how many were accepted.
#[unsafe(no_mangle)]
pub extern "C" fn domezatsy_calls(bytes: &[u8]) -> u32
    ensures { result ≡ accepted_calls bytes.now % 2 ^ 32 }
{
    let mut x = engine::fresh(0).cluster;
    let mut accepted: u32 = 0;
    let mut at: usize = 0;
    for _ in 0..bytes.len() {
        let Reading::Record { call, next } = records::reader::read_at(bytes, at) else {
            return accepted;
        };
        let o = engine::perform(call, x);
        accepted = accepted.wrapping_add(accepted_one(o.answer));
        x = o.cluster;
        at = next;
    }
    accepted
}

// Drains the lock of the cluster that the transcript leads to, so many times: the steps in all.
#[unsafe(no_mangle)]
pub extern "C" fn domezatsy_drains(bytes: &[u8], lock: u8, times: u32) -> u32
    ensures { result ≡ (times * (drain (replay (fresh 0).cluster bytes.now).cluster (record { 0 = lock })).count) % 2 ^ 32 }
{
    let r = transcript::run::replay(engine::fresh(0).cluster, bytes);
    drains(r.cluster, lock, times)
}

fn drains(x: Cluster, lock: u8, times: u32) -> u32
    ensures { result ≡ (times * (drain x (record { 0 = lock })).count) % 2 ^ 32 }
{
    let mut steps: u32 = 0;
    for _ in 0..times {
        let d = engine::drain(x, LockId(lock));
        steps = steps.wrapping_add(u32::from(d.count));
    }
    steps
}

// Asks why the client, by number, waits in the cluster that the transcript leads to, so many times: the numbers of the answers and 1 for each.
#[unsafe(no_mangle)]
pub extern "C" fn domezatsy_reasons(bytes: &[u8], lock: u8, client: u8, times: u32) -> u32
    ensures { result ≡ (times * (answered (replay (fresh 0).cluster bytes.now).cluster lock client + 1)) % 2 ^ 32 }
{
    let r = transcript::run::replay(engine::fresh(0).cluster, bytes);
    asked(r.cluster, lock, client, times)
}

fn asked(x: Cluster, lock: u8, client: u8, times: u32) -> u32
    ensures { result ≡ (times * (answered x lock client + 1)) % 2 ^ 32 }
{
    let mut total: u32 = 0;
    for _ in 0..times {
        let a = engine::reason(x, LockId(lock), MachineId(client / 4), TaskId(client % 4));
        total = total.wrapping_add(u32::from(a.number()) + 1);
    }
    total
}
