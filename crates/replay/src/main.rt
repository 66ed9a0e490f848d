// The program replay: runs a transcript from standard input on a fresh cluster, which prefers readers, and writes its listing.
#![tactic(auto)]

use input::read_full;
use std::io;

// One byte more than a transcript may have, so that a longer one shows.
const MOST: usize = 65536;

// No listing is longer (`longest_listing`, theorems/specs/Statements.antt).
const ROOM: usize = 19 + 4 * 65535 + 24;

fn main(rt: HostRuntime) -> io::Result<()> {
    let mut bytes = [0u8; MOST];
    let n = read_full(&mut rt.reader(), &mut bytes)?;
    let mut out = [0u8; ROOM];
    let made = engine::fresh(0);
    let listed = transcript::run::list(made.cluster, &bytes[..n], &mut out);
    rt.write_all(&out[..listed.written.min(ROOM)])
}
