//! Cases, one on each line.
use crate::answers::push_answer;
use crate::encoding::decode;
use crate::faults::{Fault, LineFault};
use crate::settings::Settings;
use std::alloc::Global;

/// Appends the answers to all the cases, one on each line. The first line that isn't a case is the fault.
pub(crate) fn push_answers(alloc: Global, answers: &mut String, cases: &str) -> Result<(), Fault> {
    for (before, case) in cases.lines().enumerate() {
        if let Err(reason) = push_line(alloc, answers, case) {
            return Err(Fault {
                line: before.saturating_add(1),
                reason,
            });
        }
    }
    Ok(())
}

/// Appends the answer to one case, and a line feed.
fn push_line(alloc: Global, answers: &mut String, case: &str) -> Result<(), LineFault> {
    push_case(alloc, answers, case)?;
    answers.push('\n')?;
    Ok(())
}

/// Appends the answer to one case.
pub(crate) fn push_case(alloc: Global, answers: &mut String, case: &str) -> Result<(), LineFault> {
    let Some((words, code)) = case.split_once('\t') else {
        return Err(LineFault::NoTab);
    };
    let settings = Settings::of(alloc, words)?;
    let text = decode(alloc, code)?;
    push_answer(alloc, answers, settings, &text)
}
