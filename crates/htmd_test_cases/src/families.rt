//! Families: cases with their answers beside them, one on each line.
use crate::cases::push_case;
use crate::faults::{Fault, LineFault};
use std::alloc::Global;

/// Appends how many cases a family has. The first line that isn't a case with its answer is the fault.
pub(crate) fn push_count(
    alloc: Global,
    answers: &mut String,
    name: &str,
    family: &str,
) -> Result<(), Fault> {
    let mut count: usize = 0;
    for (before, line) in family.lines().enumerate() {
        if line.starts_with('#') {
            continue;
        }
        if let Err(reason) = expect_answer(alloc, line) {
            return Err(Fault {
                line: before.saturating_add(1),
                reason,
            });
        }
        count = count.saturating_add(1);
    }
    if let Err(reason) = push_line(alloc, answers, name, count) {
        return Err(Fault { line: 0, reason });
    }
    Ok(())
}

/// Appends the line that says how many cases there are.
fn push_line(
    alloc: Global,
    answers: &mut String,
    name: &str,
    count: usize,
) -> Result<(), LineFault> {
    let line = format!(in alloc; "{name}: {count} cases\n")?;
    answers.push_str(&line)?;
    Ok(())
}

/// Asks a case, and compares the answer with the one after it.
fn expect_answer(alloc: Global, line: &str) -> Result<(), LineFault> {
    let Some((case, wanted)) = line.rsplit_once('\t') else {
        return Err(LineFault::NoTab);
    };
    let mut answer = String::new(alloc);
    push_case(alloc, &mut answer, case)?;
    if answer.as_str() == wanted {
        return Ok(());
    }
    Err(LineFault::Wrong(answer))
}
