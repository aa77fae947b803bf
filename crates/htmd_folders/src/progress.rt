//! What is written about a run while it goes on, and at its end.
use crate::lines::{Grouped, Lines};
use crate::run::Tally;
use htmd_streams::Sink;
use std::fmt;
use std::fmt::Write;

/// What is said of a run of more than one page, apart from its faults.
#[derive(Clone, Copy, PartialEq, Eq, Drop)]
pub enum Progress {
    /// Nothing.
    Quiet,
    /// How many pages were converted, failed, and so on, in a last line.
    Total,
    /// The same, and a count meanwhile, which is written over itself.
    Count,
}

/// The count is written again after this many pages.
const STEP: u64 = 16;

/// This covers a count.
const BLANK: &str = "\r                                                            \r";

/// Writes how many of the pages are done, if that is due after so many.
pub(crate) fn write_count<E: Sink>(errors: &mut E, progress: Progress, done: u64, pages: u64) {
    if progress == Progress::Count && done.is_multiple_of(STEP) {
        let done = Grouped(done);
        let pages = Grouped(pages);
        let _ = write!(Lines { sink: errors }, "\rhtmd: {done} of {pages} pages");
    }
}

/// Erases the count, so that a line can follow.
pub(crate) fn clear_count<E: Sink>(errors: &mut E, progress: Progress) {
    if progress == Progress::Count {
        let _ = Lines { sink: errors }.write_str(BLANK);
    }
}

/// Writes how many pages were converted and how many failed, and if there are any, how many files were copied and how
/// many outputs were newer, unless nothing is to be said.
pub fn write_total<E: Sink>(errors: &mut E, progress: Progress, tally: Tally) {
    if progress != Progress::Quiet {
        let _ = writeln!(Lines { sink: errors }, "htmd: {tally}");
    }
}

impl fmt::Display for Tally {
    fn fmt<W: fmt::Write>(&self, f: &mut fmt::Formatter<W>) -> fmt::Result {
        let converted = Pages(self.converted);
        let failed = Grouped(self.failed);
        write!(f, "{converted} converted, {failed} failed")?;
        if self.copied > 0 {
            let word = if self.copied == 1 { "file" } else { "files" };
            write!(f, ", {} {word} copied", Grouped(self.copied))?;
        }
        if self.up_to_date > 0 {
            write!(f, ", {} up to date", Grouped(self.up_to_date))?;
        }
        Ok(())
    }
}

// A number of pages.
#[derive(Clone, Copy, Drop)]
struct Pages(u64);

impl fmt::Display for Pages {
    fn fmt<W: fmt::Write>(&self, f: &mut fmt::Formatter<W>) -> fmt::Result {
        let word = if self.0 == 1 { "page" } else { "pages" };
        write!(f, "{} {word}", Grouped(self.0))
    }
}
