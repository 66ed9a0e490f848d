// The lines of a transcript, gathered in a buffer that is written whenever it is half full.
use crate::objects::{put_end, put_record};
use engine::{fresh, perform};
use listing::Lines;
use model::{Cluster, Outcome, Reading, Replayed};
use records::reader::read_at;
use std::io;
use transcript::run::replay;

// No line is longer: 49 packets, each with an agent and 16 waiters inside, take less.
const LONGEST: usize = 49152;

const ROOM: usize = 2 * LONGEST;

// Writes the lines, and begins the buffer anew, where it may not hold another.
fn make_room(rt: &impl Print, lines: &mut Lines) -> io::Result<()> {
    if LONGEST < lines.written() {
        rt.write_all(lines.bytes())?;
        lines.clear();
    }
    Ok(())
}

// A line for each record, its call made on the cluster that the one before left, the first on start; none for a transcript that is too long.
fn put_records(rt: &impl Print, lines: &mut Lines, start: Cluster, bytes: &[u8]) -> io::Result<()> {
    if 65535 < bytes.len() {
        return Ok(());
    }
    let mut x = start;
    let mut at = 0;
    // At most 10,922 records of six bytes or more, and one turn for what is behind them.
    for n in 1..10924 {
        let Reading::Record { call, next } = read_at(bytes, at) else {
            return Ok(());
        };
        let o = perform(call, x);
        make_room(rt, lines)?;
        put_record(lines, n, call, &o);
        x = o.cluster;
        at = next;
    }
    Ok(())
}

// A cluster with a bad preference runs no record.
fn put_all(rt: &impl Print, lines: &mut Lines, made: Outcome, bytes: &[u8]) -> io::Result<()> {
    match made.answer {
        Ok(()) => {
            put_records(rt, lines, made.cluster, bytes)?;
            make_room(rt, lines)?;
            put_end(lines, &replay(made.cluster, bytes));
        }
        Err(_) => {
            let none = Replayed {
                answer: made.answer,
                records: 0,
                handling: made.handling,
                cluster: made.cluster,
            };
            put_end(lines, &none);
        }
    }
    Ok(())
}

pub fn inspect(rt: &impl Print, preference: u8, bytes: &[u8]) -> io::Result<()> {
    let mut out = [0u8; ROOM];
    let mut lines = Lines::new(&mut out);
    put_all(rt, &mut lines, fresh(preference), bytes)?;
    rt.write_all(lines.bytes())
}
