// The program of docs/random-runs.md without its transcripts: the lines of all runs, then of all hand-made states.
#![tactic(auto)]

mod agent;
mod choice;
mod fault;
mod generator;
mod hand_made;
mod packet;
mod profile;
mod run;

use generator::Generator;
use model::Numbered;
use run::Run;
use std::io;

// 'Runs': the digest h goes on over what making a cluster with the preference n gives.
fn made(h: u32, n: u8) -> u32 {
    let o = engine::fresh(n);
    digest::cluster(run::digested(h, &[n, o.answer.number()]), o.cluster)
}

// For each number in turn.
fn fresh(rt: &impl Print) -> io::Result<()> {
    let mut h = 0;
    for n in 0..=u8::MAX {
        h = made(h, n);
    }
    println!(rt; "fresh digest {h}")
}

// 'Runs': one seed.
fn from_fresh(rt: &impl Print, seed: u32) -> io::Result<()> {
    let g = Generator::new(seed);
    let x = engine::fresh((seed / 13 % 2) as u8).cluster;
    Run::new("run", seed, profile::numbered(seed % 13), g, x).write(rt)
}

// 'Hand-made states': one seed.
fn from_hand_made(rt: &impl Print, seed: u32) -> io::Result<()> {
    let mut g = Generator::new(seed);
    let x = hand_made::cluster(&mut g, seed);
    Run::new("state", seed, profile::hand_made(), g, x).write(rt)
}

fn runs(rt: &impl Print) -> io::Result<()> {
    for seed in 1..=1430 {
        from_fresh(rt, seed)?;
    }
    Ok(())
}

fn states(rt: &impl Print) -> io::Result<()> {
    for seed in 1..=5000 {
        from_hand_made(rt, seed)?;
    }
    Ok(())
}

fn main(rt: HostRuntime) -> io::Result<()> {
    fresh(&rt)?;
    runs(&rt)?;
    states(&rt)
}
