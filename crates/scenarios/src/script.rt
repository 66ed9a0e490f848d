// The commands of the script, one after the other.
use crate::call::Line;
use crate::transcripts::ROOM;
use crate::{call, show, transcripts, why};
use arrayvec::ArrayVec;
use by_hand::line::{first_numbers, parted};
use by_hand::print::Output;
use by_hand::{agents, locks, packets};
use model::{AgentSlot, Cluster, Packet};
use parts::blank::{blank_packet, no_agent};

// The cluster of the next call, and the one that was set aside; the agent, the packet and the transcript in the making.
#[derive(Drop)]
struct Made {
    cluster: Cluster,
    kept: Cluster,
    slot: AgentSlot,
    packet: Packet,
    records: ArrayVec<u8, ROOM>,
}

impl Made {
    // All of it begins with the cluster.
    fn new(cluster: Cluster) -> Made {
        Made {
            cluster,
            kept: cluster,
            slot: no_agent(),
            packet: blank_packet(),
            records: ArrayVec::new(),
        }
    }

    fn fresh() -> Made {
        Made::new(engine::fresh(0).cluster)
    }

    // Apart from `command`, where it would take two clusters' room on the stack during a drain.
    fn begin(&mut self) {
        *self = Made::fresh();
    }

    fn keep(&mut self) {
        let cluster = self.cluster;
        self.kept = cluster;
    }

    // A cluster with the preference is made; the answer is printed.
    fn make(&mut self, out: &mut Output<'_, impl Print>, s: &[u8]) {
        let [preference] = first_numbers::<1>(s);
        let made = engine::fresh(preference);
        out.text(b"make ");
        out.text(s);
        out.text(b": ");
        out.answer(made.answer);
        out.text(b"\n");
        *self = Made::new(made.cluster);
    }

    // The cluster's preference is written by hand.
    fn prefer(&mut self, s: &[u8]) {
        let [preference] = first_numbers::<1>(s);
        self.cluster.preference = preference;
    }

    fn lock(&mut self, out: &mut Output<'_, impl Print>, s: &[u8]) {
        let [lock] = first_numbers::<1>(s);
        match self.cluster.locks.get_mut(lock as usize) {
            Some(state) => locks::made(out, state, &self.slot, &self.packet, s),
            None => out.not_understood(s),
        }
    }

    fn replay(&mut self, out: &mut Output<'_, impl Print>, s: &[u8]) {
        transcripts::replayed(out, &mut self.cluster, self.records.as_slice(), s);
        self.records.clear();
    }

    // A command of no word of these is a call.
    fn command(&mut self, out: &mut Output<'_, impl Print>, s: &[u8]) {
        let (word, rest) = parted(s);
        match word {
            b"say" => out.line(rest),
            b"bound" => out.text(rest),
            b"show" => show::shown(out, &self.cluster, &self.kept, rest),
            b"try" => call::tried(out, &self.cluster, rest, Line::Answered),
            b"inside" => call::tried(out, &self.cluster, rest, Line::Inside),
            b"outside" => call::tried(out, &self.cluster, rest, Line::Outside),
            b"reason" => why::asked(out, &self.cluster, rest),
            b"fresh" => self.begin(),
            b"keep" => self.keep(),
            b"lock" => self.lock(out, rest),
            b"agent" => agents::made(out, &mut self.slot, rest),
            b"packet" => packets::made(out, &mut self.packet, &self.slot, rest),
            b"handled" => call::called(out, &mut self.cluster, rest, Line::Handled),
            b"record" => transcripts::record(out, &mut self.records, rest),
            b"replay" => self.replay(out, rest),
            b"make" => self.make(out, rest),
            b"prefer" => self.prefer(rest),
            b"times" => call::repeated(out, &mut self.cluster, rest),
            _ => call::called(out, &mut self.cluster, s, Line::Answered),
        }
    }

    // The commands of a line, up to a comment.
    fn line(&mut self, out: &mut Output<'_, impl Print>, line: &[u8]) {
        for s in line
            .split(|b| *b == b';')
            .take_while(|s| !s.starts_with(b"#"))
        {
            let command = s.strip_prefix(b" ").unwrap_or(s);
            if !command.is_empty() {
                self.command(out, command);
            }
        }
    }
}

pub fn run(out: &mut Output<'_, impl Print>, script: &[u8]) {
    let mut made = Made::fresh();
    for line in script.split(|b| *b == b'\n') {
        made.line(out, line);
    }
}
