//! Pages in pieces. It reads a case from each line of standard input: settings, a tab and a page. It writes the pieces
//! of each case as lines of JSON, and an empty line.
#![tactic(auto)]

mod cases;

use crate::cases::push_answers;
use std::io::{self, Write};
use std::process::ExitCode;

fn main(rt: HostRuntime) -> io::Result<ExitCode> {
    let cases = io::read_to_string(rt.alloc(), rt.stdin())?;
    let mut answers = String::new(rt.alloc());
    if push_answers(rt.alloc(), &mut answers, &cases)? {
        let mut stdout = rt.stdout();
        stdout.write_all(answers.as_bytes())?;
        stdout.flush()?;
        return Ok(ExitCode::SUCCESS);
    }
    eprintln!(rt; "htmd_test_chunks: a line is no case")?;
    Ok(ExitCode::FAILURE)
}
