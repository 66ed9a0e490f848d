// The run of a transcript, with its listing. The cluster stays in one local: each record's call is planned on its lock's state, which is written in
// its place where the plan accepts; then the record's line is put into the caller's buffer, as far as that goes.
ghost use Rattle.std.specs.Prelude.{◌≡◌, true, ◌+◌, ◌≤◌, length, None};
ghost use Rattle.model.specs.Names.{Refused};
ghost use Rattle.model.specs.WellFormed.{well_formed};
ghost use Rattle.model.specs.Transcripts.{replayed, replay_from, replay};
ghost use Rattle.model.specs.Listing.{lines_from, refused_line, listing, filled, put};
ghost use Rattle.listing.specs.Lines.{Puts};
ghost use Rattle.transcript.specs.Run.{Made};

use formed::well_formed;
use listing::Lines;
use lock_calls::{apply, lock_of, plan_call};
use model::{Answer, Call, Cluster, Handling, LOCKS, Reading, Refusal, Replayed};
use records::reader::read_at;

// The run's outcome, and the position behind its listing in the caller's buffer.
#[derive(Clone, Copy, Drop)]
pub struct Listed {
    pub outcome: Replayed,
    pub written: usize,
}

// Makes a record's call, and writes what it tells: its answer, and how many packets are then on its lock's wire. A lock out of range has no state to step
// on, and no wire.
fn make(call: Call, told: &mut Option<Handling>, y: &mut Cluster) -> (Answer, u8)
    requires { well_formed y.old ≡ true }
    ensures { Made call told.old y.old result.0 result.1 told.new y.new }
{
    let l = lock_of(call);
    if LOCKS as u8 <= l.0 {
        return (Err(Refusal::LockRange), 0);
    }
    let i = l.0 as usize;
    match plan_call(y.preference, call, &y.locks[i]) {
        Ok(plan) => {
            apply(&plan, &mut y.locks[i]);
            *told = plan.handling.or(*told);
            (Ok(()), y.locks[i].wire.len)
        }
        Err(refusal) => (Err(refusal), y.locks[i].wire.len),
    }
}

// Each record's call is made, whatever it answers.
fn run_records(x: Cluster, bytes: &[u8], lines: &mut Lines) -> Replayed
    requires { (well_formed x ≡ true) × (length bytes.now ≤ 65535) }
    ensures outcome { result ≡ replay_from (length bytes.now + 1) bytes.now 0 0 None x }
    ensures lines { Puts (lines_from (length bytes.now + 1) bytes.now 0 0 x) lines.old lines.new }
{
    let mut cluster = x;
    let mut at: usize = 0;
    let mut records: u16 = 0;
    let mut handling = None;
    loop {
        match read_at(bytes, at) {
            Reading::Record { call, next } => {
                let (answer, wire) = make(call, &mut handling, &mut cluster);
                records += 1;
                lines.line(records, call.kind(), answer, wire);
                at = next;
            }
            Reading::Bad => {
                lines.refused(records + 1, Refusal::BadRecord);
                return Replayed {
                    answer: Err(Refusal::BadRecord),
                    records: records + 1,
                    handling,
                    cluster,
                };
            }
            Reading::End => {
                return Replayed {
                    answer: Ok(()),
                    records,
                    handling,
                    cluster,
                };
            }
        }
    }
}

// A run that has not begun.
fn refuse_run(refusal: Refusal, cluster: Cluster, lines: &mut Lines) -> Replayed
    ensures outcome { result ≡ replayed (Refused refusal) 0 None cluster }
    ensures lines { Puts (refused_line 0 refusal) lines.old lines.new }
{
    lines.refused(0, refusal);
    Replayed {
        answer: Err(refusal),
        records: 0,
        handling: None,
        cluster,
    }
}

// Tests 11, then 13, before any record is run.
fn run(x: Cluster, bytes: &[u8], lines: &mut Lines) -> Replayed
    ensures outcome { result ≡ replay x bytes.now }
    ensures lines { Puts (listing x bytes.now) lines.old lines.new }
{
    lines.header();
    if !well_formed(x) {
        return refuse_run(Refusal::Malformed, x, lines);
    }
    if bytes.len() <= 65535 {
        run_records(x, bytes, lines)
    } else {
        refuse_run(Refusal::TranscriptLength, x, lines)
    }
}

// The run and its listing, which is put into the buffer from its start on.
pub fn list(x: Cluster, bytes: &[u8], out: &mut [u8]) -> Listed
    ensures { (result.outcome ≡ replay x bytes.now)
        × (filled out.new result.written ≡ put (listing x bytes.now) (filled out.old 0)) }
{
    let mut lines = Lines::new(out);
    let outcome = run(x, bytes, &mut lines);
    Listed {
        outcome,
        written: lines.written(),
    }
}

// The run alone: its listing has no room.
pub fn replay(x: Cluster, bytes: &[u8]) -> Replayed
    ensures { result ≡ replay x bytes.now }
{
    let mut none = [0u8; 1];
    list(x, bytes, &mut none[..0]).outcome
}
