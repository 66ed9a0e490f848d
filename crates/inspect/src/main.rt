// The program inspect: runs a transcript from standard input on a fresh cluster, whose preference is the first argument, 0 without one, and writes a line of
// JSON for each record, with its lock's whole state after it, and one for how the run ended. docs/inspect.md has the fields.
#![tactic(auto)]

mod lines;
mod objects;
mod preference;

use input::read_full;
use std::io;

// One byte more than a transcript may have, so that a longer one shows.
const MOST: usize = 65536;

fn main(rt: HostRuntime) -> io::Result<()> {
    let mut bytes = [0u8; MOST];
    let n = read_full(&mut rt.reader(), &mut bytes)?;
    lines::inspect(&rt, preference::given(&rt), &bytes[..n])
}
