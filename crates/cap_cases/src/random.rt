//! Runs commands on random input, and checks properties that their results must have.

mod captures;
mod choices;
mod expressions;
mod frames;
mod packets;
mod properties;
mod rules;
mod run;

use crate::random::properties::compare_round;
use crate::random::run::Fuzzer;
use crate::shown::difference_text;
use std::test::Fail;

/// Runs the rounds, and prints how often each property was checked. `true` if nothing differed.
///
/// Each round has the seed after that of the one before it, so that one round is run again by
/// its own seed.
pub fn run_rounds(rt: &HostRuntime, seed: u64, rounds: u64) -> Result<bool, Fail> {
    rt.println(format_args!("seed {seed}, {rounds} rounds"))?;
    let mut fuzzer = Fuzzer::new(rt);
    for round in 0..rounds {
        if let Err(difference) = compare_round(&mut fuzzer, seed.wrapping_add(round)) {
            return Err(Fail::new(difference_text(rt.alloc(), difference)?));
        }
    }
    for (name, count) in fuzzer.counts.iter() {
        rt.println(format_args!("{name}: {count}"))?;
    }
    let differing = fuzzer.differing;
    rt.println(format_args!("{differing} differ"))?;
    Ok(differing == 0)
}
