//! A driver for cases. It reads one case on each line (settings, a tab and a text) and writes the answer to each as a
//! line; then it reads the files that its arguments name, each a family of cases with their answers, and writes how
//! many each has. `README.md` says what the lines hold. All is read before anything is written: a line that isn't a
//! case, or a case of a family whose answer isn't the one beside it, ends the program with status 1 and nothing
//! written.
#![tactic(auto)]

mod answers;
mod cases;
mod encoding;
mod families;
mod faults;
mod nodes;
mod options;
mod program;
mod settings;
mod trees;

use crate::cases::push_answers;
use crate::families::push_count;
use crate::faults::Fault;
use std::alloc::Global;
use std::io::{self, Write};
use std::process::ExitCode;
use std::{env, fs};

fn main(rt: HostRuntime) -> io::Result<ExitCode> {
    let cases = io::read_to_string(rt.alloc(), rt.stdin())?;
    let mut answers = match answers_to(rt.alloc(), &cases) {
        Ok(answers) => answers,
        Err(fault) => {
            eprintln!(rt; "htmd_test_cases: {fault}")?;
            return Ok(ExitCode::FAILURE);
        }
    };
    for name in env::args(&rt)?.skip(1) {
        let family = fs::read_to_string(&rt, name.as_str())?;
        if let Err(fault) = push_count(rt.alloc(), &mut answers, &name, &family) {
            eprintln!(rt; "htmd_test_cases: {name}, {fault}")?;
            return Ok(ExitCode::FAILURE);
        }
    }
    let mut stdout = rt.stdout();
    stdout.write_all(answers.as_bytes())?;
    stdout.flush()?;
    Ok(ExitCode::SUCCESS)
}

/// The answers to all the cases, one on each line.
fn answers_to(alloc: Global, cases: &str) -> Result<String, Fault> {
    let mut answers = String::new(alloc);
    push_answers(alloc, &mut answers, cases)?;
    Ok(answers)
}
