//! Calls of the program.
use crate::encoding::push_encoded;
use crate::faults::LineFault;
use htmd_cli::{Input, Output, command};
use std::alloc::Global;

/// Appends what the program writes for an input with these options. If its status isn't 0 or it says something on
/// standard error, that is the status and what it says.
pub(crate) fn push_run(
    alloc: Global,
    answers: &mut String,
    words: &[String],
    input: &str,
) -> Result<(), LineFault> {
    let mut written = Vec::new(alloc);
    let mut said = Vec::new(alloc);
    let mut source = Input::new(input.as_bytes());
    let mut sink = Output::new(&mut written);
    let mut errors = Output::new(&mut said);
    let status = command(alloc, words, &mut source, &mut sink, &mut errors);
    let (Ok(written), Ok(said)) = (str::from_utf8(&written), str::from_utf8(&said)) else {
        return Err(LineFault::Run);
    };
    if status == 0 && said.is_empty() {
        answers.push('=')?;
        push_encoded(answers, written)?;
        return Ok(());
    }
    push_failure(alloc, answers, status, said)
}

/// Appends the status of a run that failed, and what it said.
fn push_failure(
    alloc: Global,
    answers: &mut String,
    status: u8,
    said: &str,
) -> Result<(), LineFault> {
    let front = format!(in alloc; "!{status} ")?;
    answers.push_str(&front)?;
    push_encoded(answers, said)?;
    Ok(())
}
