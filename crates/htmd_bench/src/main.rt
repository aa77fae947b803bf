//! How fast texts are made and pages are converted. The program reads all of standard input and tells how large each
//! answer is; with the option `--time` also how long it took, the best of several rounds, and with `--once` of a single
//! one. With `--registered=N` the time of `tree_to_markdown` is that of a converter with this many registrations of
//! tags that no page has. If works are named, only those are done. With `--rows` the input is rows with a page each,
//! and the program tells how long they take as a batch and alone.
#![tactic(auto)]

mod faults;
mod rows;
mod speed;
mod work;

use crate::faults::Fault;
use crate::rows::tell_rows;
use crate::work::{Work, answer_len, speed_of};
use std::{env, io};

/// The works, in the order in which they are told.
const WORKS: [Work; 8] = [
    Work::Copy,
    Work::Escape,
    Work::Squeeze,
    Work::Read,
    Work::ReadAny,
    Work::Walk,
    Work::Document,
    Work::Convert,
];

/// How often a work is done while the time is taken.
const ROUNDS: u32 = 10;

fn main(rt: HostRuntime) -> Result<(), Fault> {
    let input = io::read_to_string(rt.alloc(), rt.stdin())?;
    let rounds = if has_word(&rt, "--once")? { 1 } else { ROUNDS };
    if has_word(&rt, "--rows")? {
        return tell_rows(&rt, &input, rounds);
    }
    tell_works(&rt, &input, rounds)
}

/// Tells of each work that the program was called with, or of all if it was called with none.
fn tell_works(rt: &HostRuntime, input: &str, rounds: u32) -> Result<(), Fault> {
    let is_timed = has_word(rt, "--time")?;
    let registered = registered(rt)?;
    let takes_all = env::args(rt)?
        .skip(1)
        .all(|word| word.as_str().starts_with("--"));
    for work in WORKS {
        if !takes_all && !has_word(rt, work.name())? {
            continue;
        }
        if is_timed {
            tell_speed(rt, work, input, registered, rounds)?;
        } else {
            tell_len(rt, work, input)?;
        }
    }
    Ok(())
}

/// Tells how long the answer is, and how long it took.
fn tell_speed(
    rt: &HostRuntime,
    work: Work,
    input: &str,
    registered: usize,
    rounds: u32,
) -> Result<(), Fault> {
    // Before the length is found, so that the first round of the first work is done in new memory.
    let speed = speed_of(rt, work, input, registered, rounds)?;
    let len = answer_len(rt.alloc(), work, input)?;
    let name = work.name();
    println!(rt; "{name}: {len}, {speed}")?;
    Ok(())
}

/// Tells how long the answer is.
fn tell_len(rt: &HostRuntime, work: Work, input: &str) -> Result<(), Fault> {
    let len = answer_len(rt.alloc(), work, input)?;
    let name = work.name();
    println!(rt; "{name}: {len}")?;
    Ok(())
}

/// Whether the option is among those that the program was called with.
fn has_word(rt: &HostRuntime, word: &str) -> io::Result<bool> {
    Ok(env::args(rt)?.skip(1).any(|each| each.as_str() == word))
}

/// How many registrations the program was asked for.
fn registered(rt: &HostRuntime) -> Result<usize, Fault> {
    for word in env::args(rt)?.skip(1) {
        if let Some(count) = word.as_str().strip_prefix("--registered=") {
            return Ok(count.parse::<usize>()?);
        }
    }
    Ok(0)
}
