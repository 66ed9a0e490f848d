// Runs the script on standard input, which makes states by hand, calls on them and prints the answers. The file stdin is the script, and says at its
// top what a script has; the file stdout was written by hand from documents 01 and 02.
#![tactic(auto)]

mod call;
mod handlings;
mod script;
mod show;
mod transcripts;
mod why;

use by_hand::print::Output;
use input::read_full;
use std::io;

// The script has less.
const ROOM: usize = 98304;

fn main(rt: HostRuntime) -> io::Result<()> {
    let mut bytes = [0u8; ROOM];
    let n = read_full(&mut rt.reader(), &mut bytes)?;
    let mut out = Output::new(&rt);
    script::run(&mut out, &bytes[..n]);
    out.end()
}
