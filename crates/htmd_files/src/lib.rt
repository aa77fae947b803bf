//! What the program does with files, before any is touched: the words of the command line, and the plan, which says for
//! each page where it is read and where its Markdown is written.
#![tactic(auto)]

mod faults;
mod names;
mod places;
mod planning;
mod words;

pub use faults::{PlanFault, WordFault};
pub use names::{Naming, PageKind, UNFINISHED, is_page, with_extension};
pub use places::{normal_path, relative};
pub use planning::{Destination, FilePlan, Operand, Page, plan_of};
pub use words::{Job, job_of};
