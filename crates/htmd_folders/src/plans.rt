//! The plan of a job, for what a store has.
ghost use Rattle.std.specs.Prelude.{◌≡◌, [], IfOk, IfErr, Ok, option_map};
ghost use Rattle.htmd_files.specs.NameViews.{naming_of};
ghost use Rattle.htmd_files.specs.PlanViews.{destination_of, plan_in};
ghost use Rattle.htmd_files.specs.WordViews.{job_in};
ghost use Rattle.htmd_folders.specs.Changes.{Makes};
ghost use Rattle.htmd_folders.specs.PlanViews.{missed_in, HasPagesApart, HasPlace, IsNoPlan};
ghost use Rattle.htmd_folders.specs.Plans.{AreFinished, IsPlanOf};

use crate::operands::{Found, Missed, find_operands, is_folder};
use crate::store::Store;
use htmd_files::{Destination, FilePlan, Job, Naming, PlanFault, plan_of};
use std::alloc::Global;

/// The plan of a job for what a store has where its names lead, and of what nothing is converted. Pages and outputs in
/// a folder are named so. Nothing is changed.
pub fn find_plan<S: Store>(
    alloc: Global,
    store: &mut S,
    job: &Job<'_>,
    naming: Naming<'_>,
) -> Result<(FilePlan, Vec<Missed>), PlanFault>
    ensures ok { IfOk result (λ found. IsPlanOf (S.changes store.old) (job_in job.now) (naming_of naming.entry)
        (missed_in found.1.items) (Ok (plan_in found.0))) }
    ensures apart { IfOk result (λ found. AreFinished (naming_of naming.entry).extension → HasPagesApart found.0) }
    ensures err { IfErr result (IsNoPlan (S.changes store.old) (job_in job.now) (naming_of naming.entry)) }
    ensures same { Makes (S.changes store.old) (S.changes store.new) [] }
{
    let Found { operands, missed } = find_operands(
        alloc,
        store,
        &job.operands,
        naming.kind,
        job.output.is_some(),
        job.copies,
    )?;
    let destination = find_destination(store, job, naming);
    match plan_of(alloc, &operands, destination) {
        Ok(plan) => Ok((plan, missed)),
        Err(fault) => Err(fault),
    }
}

// The output that is named, and whether that is a folder which is there.
fn find_destination<'a, S: Store>(
    store: &mut S,
    job: &Job<'a>,
    naming: Naming<'a>,
) -> Option<Destination<'a>>
    ensures place { HasPlace (S.changes store.old) (job_in job.now) (naming_of naming.entry)
        (option_map destination_of result) }
    ensures same { Makes (S.changes store.old) (S.changes store.new) [] }
{
    match job.output {
        Some(path) => Some(Destination {
            path,
            is_folder: is_folder(store, path),
            naming,
            copies: job.copies,
        }),
        None => None,
    }
}
