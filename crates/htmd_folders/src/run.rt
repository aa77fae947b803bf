//! All pages of a plan.
ghost use Rattle.std.specs.Prelude.{◌≡◌, ◌⊎◌, ◌<◌, ◌+◌, ◌^◌, suc, length, ℕ, List};
ghost use Rattle.std.specs.List.{AllByRecursion};
ghost use Rattle.htmd_folders.specs.Changes.{held, IsReplaceable};
ghost use Rattle.htmd_folders.specs.Pages.{Converts, Fails, or_copy};
ghost use Rattle.htmd_folders.specs.FolderConversions.{Takes, TakesOne, AreApart, AreSparing, IfKnown, IsConverted};
ghost use Rattle.htmd_folders.specs.FolderConversions.{IsConvertedOrKept, IsNeverHalf, IsSpared};

use crate::conversion::Conversion;
use crate::faults::{PageFault, Unopened};
use crate::lines::{Lines, ShownName};
use crate::page::convert_to_file;
use crate::progress::{Progress, clear_count, write_count};
use crate::store::Store;
use htmd_files::Page;
use htmd_streams::Sink;
use std::alloc::Global;
use std::fmt::Write;

/// How many pages of a run were converted, how many files copied, how many of both were left alone since their outputs
/// are newer, and how many failed.
#[derive(Debug, Clone, Copy, PartialEq, Eq, Drop)]
pub struct Tally {
    pub converted: u64,
    pub copied: u64,
    pub up_to_date: u64,
    pub failed: u64,
}

/// How pages are taken.
#[derive(Clone, Copy, Drop)]
pub struct RunOptions {
    /// A page whose output is newer is left alone.
    pub keeps_newer: bool,
    pub progress: Progress,
}

/// Converts pages and copies files, each after the other; one that fails has a line on the sink for errors, and the
/// others go on. If there are more pages than one, that sink also gets the count that `progress` requests.
pub fn run_pages<S: Store, C: Conversion, E: Sink>(
    alloc: Global,
    store: &mut S,
    conversion: &C,
    pages: &[Page],
    errors: &mut E,
    options: RunOptions,
) -> Tally
    ensures all { result.converted + result.copied + result.up_to_date + result.failed ≡ length pages.now }
    ensures taken { Takes (or_copy (C.becomes conversion.now)) options.keeps_newer pages.now
        (S.changes store.old) (S.changes store.new) result.up_to_date result.failed }
    ensures converted { result.up_to_date ≡ 0 → result.failed ≡ 0 → AreApart pages.now
        → IfKnown (S.changes store.old) (S.changes store.new)
        (λ past now. AllByRecursion (IsConverted (or_copy (C.becomes conversion.now)) past now) pages.now) }
    ensures kept { AreApart pages.now → IfKnown (S.changes store.old) (S.changes store.new)
        (λ past now. AllByRecursion (IsConvertedOrKept (or_copy (C.becomes conversion.now)) past now) pages.now) }
    ensures others { IfKnown (S.changes store.old) (S.changes store.new)
        (λ past now. (name : List ℕ) → AreSparing name pages.now → IsSpared name past now) }
    ensures obstacles { IfKnown (S.changes store.old) (S.changes store.new)
        (λ past now. (name : List ℕ) → (IsReplaceable (held name past) → ⊥)
        → held name now ≡ held name past) }
    ensures never_half { IsNeverHalf (S.changes store.old) (S.changes store.new) }
{
    take_pages(alloc, store, conversion, pages, errors, options)
}

// The same, as the pages are taken.
fn take_pages<S: Store, C: Conversion, E: Sink>(
    alloc: Global,
    store: &mut S,
    conversion: &C,
    pages: &[Page],
    errors: &mut E,
    options: RunOptions,
) -> Tally
    ensures all { result.converted + result.copied + result.up_to_date + result.failed ≡ length pages.now }
    ensures taken { Takes (or_copy (C.becomes conversion.now)) options.keeps_newer pages.now
        (S.changes store.old) (S.changes store.new) result.up_to_date result.failed }
{
    protect_inputs(store, pages);
    let count = pages.len() as u64;
    let progress = if count > 1 {
        options.progress
    } else {
        Progress::Quiet
    };
    let mut tally = Tally {
        converted: 0,
        copied: 0,
        up_to_date: 0,
        failed: 0,
    };
    for page in pages {
        let done = tally.converted + tally.copied + tally.up_to_date + tally.failed;
        write_count(errors, progress, done, count);
        take_page(
            alloc,
            store,
            conversion,
            page,
            errors,
            RunOptions {
                progress,
                ..options
            },
            &mut tally,
        );
    }
    clear_count(errors, progress);
    tally
}

// Protects what the pages are read from.
fn protect_inputs<S: Store>(store: &mut S, pages: &[Page])
    ensures same { S.changes store.new ≡ S.changes store.old }
{
    for page in pages {
        store.protect(&page.input);
    }
}

// Converts a page or copies a file, unless its output is to be kept and is newer.
fn take_page<S: Store, C: Conversion, E: Sink>(
    alloc: Global,
    store: &mut S,
    conversion: &C,
    page: &Page,
    errors: &mut E,
    options: RunOptions,
    tally: &mut Tally,
)
    requires { tally.old.converted + tally.old.copied + tally.old.up_to_date + tally.old.failed < 2 ^ 63 }
    ensures all { tally.new.converted + tally.new.copied + tally.new.up_to_date + tally.new.failed
        ≡ suc (tally.old.converted + tally.old.copied + tally.old.up_to_date + tally.old.failed) }
    ensures taken { TakesOne (or_copy (C.becomes conversion.now)) options.keeps_newer page.now
        (S.changes store.old) (S.changes store.new) tally.old.up_to_date tally.old.failed
        tally.new.up_to_date tally.new.failed }
{
    if options.keeps_newer && store.is_newer(&page.output, &page.input) {
        tally.up_to_date += 1;
        return;
    }
    convert_page(
        alloc,
        store,
        conversion,
        page,
        errors,
        options.progress,
        tally,
    );
}

// Converts a page or copies a file, counts it, and says why if it failed.
fn convert_page<S: Store, C: Conversion, E: Sink>(
    alloc: Global,
    store: &mut S,
    conversion: &C,
    page: &Page,
    errors: &mut E,
    progress: Progress,
    tally: &mut Tally,
)
    requires { tally.old.converted + tally.old.copied + tally.old.up_to_date + tally.old.failed < 2 ^ 63 }
    ensures all { tally.new.converted + tally.new.copied + tally.new.failed
        ≡ suc (tally.old.converted + tally.old.copied + tally.old.failed) }
    ensures up_to_date { tally.new.up_to_date ≡ tally.old.up_to_date }
    ensures taken { (Converts (or_copy (C.becomes conversion.now)) page.now (S.changes store.old) (S.changes store.new)
        × (tally.new.failed ≡ tally.old.failed))
        ⊎ (Fails page.now (S.changes store.old) (S.changes store.new)
        × (tally.new.failed ≡ suc tally.old.failed)) }
{
    match convert_to_file(alloc, store, conversion, page, errors) {
        Ok(()) if page.is_copy => tally.copied += 1,
        Ok(()) => tally.converted += 1,
        Err(fault) => {
            clear_count(errors, progress);
            report(conversion, page, &fault, errors);
            tally.failed += 1;
        }
    }
}

// Says which page or file failed, and why.
fn report<C: Conversion, E: Sink>(
    conversion: &C,
    page: &Page,
    fault: &PageFault<C::Fault>,
    errors: &mut E,
) {
    let input = ShownName(&page.input);
    let output = ShownName(&page.output);
    let _ = match fault {
        PageFault::Conversion(fault) => {
            conversion.report(&page.input, fault, errors);
            Ok(())
        }
        PageFault::Copy(fault) => writeln!(Lines { sink: errors }, "htmd: {input}: {fault}"),
        PageFault::Input(fault) => {
            let input = Unopened {
                input: &page.input,
                fault: *fault,
            };
            writeln!(Lines { sink: errors }, "htmd: {input}")
        }
        PageFault::Output(fault) => writeln!(
            Lines { sink: errors },
            "htmd: {input}: {output} can't be written: {fault}"
        ),
    };
}
