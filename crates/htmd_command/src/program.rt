//! The program: its words, files and streams.
ghost use Rattle.std.specs.Prelude.{◌≡◌, ◌≢◌, ◌≤◌, ◌↔◌, ◌⊎◌, [], ℕ, false};
ghost use Rattle.htmd.specs.PageSettings.{settings_in};
ghost use Rattle.htmd_cli.specs.Options.{request_by};
ghost use Rattle.htmd_cli.specs.OptionRows.{request_in};
ghost use Rattle.htmd_files.specs.NameViews.{kind_of, naming_of};
ghost use Rattle.htmd_files.specs.WordViews.{job_in, texts_of};
ghost use Rattle.htmd_folders.specs.Changes.{Makes};
ghost use Rattle.htmd_folders.specs.FolderConversions.{AreApart};
ghost use Rattle.htmd_folders.specs.Pages.{or_copy};
ghost use Rattle.htmd_folders.specs.PlanViews.{missed_in};
ghost use Rattle.htmd_command.specs.PageResults.{request_for_file};
ghost use Rattle.htmd_command.specs.Programs.{IsOfFiles, Runs, RunsInput, RunsJob, ShowsInput, ShowsNamed, WritesJob};
ghost use Rattle.htmd_command.specs.Programs.{WritesPages, kind, naming as naming_for};
ghost use Rattle.htmd_command.specs.Streams.{stream, SaysMemory, Shows};

use crate::leads::led_pages;
use crate::requested::Requested;
use htmd::PageSettings;
use htmd_cli::{
    OptionFault, Request, Sink, Source, command, read_options, say_fault, say_warnings,
};
use htmd_files::{FilePlan, Job, Naming, Page, PageKind, PlanFault, WordFault, job_of};
use htmd_folders::{
    Conversion, Lines, Missed, Progress, RunOptions, ShownName, Store, StoreFault, Tally, Unopened,
    find_plan, run_pages, write_total,
};
use htmd_streams::write_all;
use std::alloc::Global;
use std::fmt::{Display, Write};
use std::io::ErrorKind;

const OUT_OF_MEMORY: &[u8] = b"htmd: out of memory\n";

/// A job with files, and what its options ask for, which is a conversion.
#[derive(Drop)]
struct FileJob<'a, 'b, 'c> {
    alloc: Global,
    job: &'a Job<'b>,
    request: &'a Request<'c>,
    is_terminal: bool,
}

/// The program: converts the files that its words name, or the standard input if they name none, and returns the exit
/// status. 0 is success, 1 means that a page was not converted, and 2 that the words can't be done: an option that is
/// not known, or files that would be written over. Without files it is `htmd_cli::command`. Faults are written as lines
/// to the sink for errors, and so are, with more than one page, their number, and on a terminal the progress.
pub fn run_program<S: Store, R: Source, W: Sink, E: Sink>(
    alloc: Global,
    words: &[String],
    store: &mut S,
    source: &mut R,
    sink: &mut W,
    errors: &mut E,
    is_terminal: bool,
) -> u8
    requires source { R.has_failed source.old ≡ false }
    requires sink { W.has_failed sink.old ≡ false }
    ensures run { Runs (texts_of words.now) (S.changes store.old) (S.changes store.new) (R.remaining source.old)
        (stream W.contents W.has_failed sink.old sink.new) (stream E.contents E.has_failed errors.old errors.new)
        result }
    ensures input { RunsInput (texts_of words.now)
        (R.remaining source.old) (W.contents sink.old) (W.contents sink.new) result }
    ensures status { result ≤ 2 }
{
    let job = match job_of(alloc, words) {
        Ok(job) => job,
        Err(fault) => return fail_words(errors, &fault),
    };
    if job.operands.is_empty() {
        return command(alloc, job.options.as_slice(), source, sink, errors);
    }
    run_named(alloc, store, &job, source, sink, errors, is_terminal)
}

// Converts the files that the job names, and answers the status.
fn run_named<S: Store, R: Source, W: Sink, E: Sink>(
    alloc: Global,
    store: &mut S,
    job: &Job<'_>,
    source: &mut R,
    sink: &mut W,
    errors: &mut E,
    is_terminal: bool,
) -> u8
    requires source { R.has_failed source.old ≡ false }
    requires sink { W.has_failed sink.old ≡ false }
    requires named { job.now.operands.items ≢ [] }
    ensures run { RunsJob (job_in job.now) job.now.options.items (S.changes store.old) (S.changes store.new)
        (R.remaining source.old) (stream W.contents W.has_failed sink.old sink.new)
        (stream E.contents E.has_failed errors.old errors.new) result }
    ensures status { result ≤ 2 }
{
    let options = job.options.as_slice();
    let request = match read_options(alloc, options) {
        Ok(request) => request,
        Err(fault) => return fail_options(errors, &fault),
    };
    if request.shows_notice() {
        return command(alloc, options, source, sink, errors);
    }
    say_warnings(errors, &request);
    let file_job = FileJob {
        alloc,
        job,
        request: &request,
        is_terminal,
    };
    run_job(&file_job, store, source, sink, errors)
}

// The same by what its options ask for, which is a conversion.
fn run_job<S: Store, R: Source, W: Sink, E: Sink>(
    of: &FileJob<'_, '_, '_>,
    store: &mut S,
    source: &mut R,
    sink: &mut W,
    errors: &mut E,
) -> u8
    requires source { R.has_failed source.old ≡ false }
    requires sink { W.has_failed sink.old ≡ false }
    requires request { request_in of.now.request.now ≡ request_by of.now.job.now.options.items }
    requires asked { IsOfFiles (job_in of.now.job.now) of.now.job.now.options.items }
    ensures run { RunsJob (job_in of.now.job.now) of.now.job.now.options.items
        (S.changes store.old) (S.changes store.new)
        (R.remaining source.old) (stream W.contents W.has_failed sink.old sink.new)
        (stream E.contents E.has_failed errors.old errors.new) result }
    ensures status { result ≤ 2 }
{
    let (plan, missed) = match find_plan(of.alloc, store, of.job, naming(of.request)) {
        Ok(found) => found,
        Err(fault) => return fail_plan(store, errors, &fault),
    };
    match plan {
        FilePlan::StandardOutput { input } => {
            show_input(of, store, input.as_str(), source, sink, errors)
        }
        FilePlan::Files { pages } => {
            write_pages(of, store, pages.as_slice(), missed.as_slice(), errors)
        }
    }
}

// Which files of a folder are pages, and how outputs in one are named.
fn naming<'a>(request: &Request<'a>) -> Naming<'a>
    ensures { naming_of result ≡ naming_for (request_in request.now).settings }
{
    Naming {
        kind: page_kind(request.settings()),
        extension: request.extension(),
    }
}

fn page_kind(settings: &PageSettings<'_>) -> PageKind
    ensures { kind_of result ≡ kind (settings_in settings.now) }
{
    if settings.is_markdown() {
        PageKind::Markdown
    } else {
        PageKind::Html
    }
}

// Converts the only input of a job into the sink, and answers the status.
fn show_input<S: Store, R: Source, W: Sink, E: Sink>(
    of: &FileJob<'_, '_, '_>,
    store: &mut S,
    input: &str,
    source: &mut R,
    sink: &mut W,
    errors: &mut E,
) -> u8
    requires source { R.has_failed source.old ≡ false }
    requires sink { W.has_failed sink.old ≡ false }
    requires request { request_in of.now.request.now ≡ request_by of.now.job.now.options.items }
    requires asked { IsOfFiles (job_in of.now.job.now) of.now.job.now.options.items }
    ensures same { Makes (S.changes store.old) (S.changes store.new) [] }
    ensures shown { ShowsInput of.now.job.now.options.items (S.changes store.old) input.now
        (R.remaining source.old) (stream W.contents W.has_failed sink.old sink.new)
        (stream E.contents E.has_failed errors.old errors.new) result }
    ensures status { result ≤ 2 }
{
    let options = of.job.options.as_slice();
    if input == "-" {
        return command(of.alloc, options, source, sink, errors);
    }
    let conversion = Requested {
        alloc: of.alloc,
        options,
        request: of.request,
        pages: None,
    };
    show_file(store, &conversion, input, sink, errors)
}

// Converts the pages of a job, and answers the status.
fn write_pages<S: Store, E: Sink>(
    of: &FileJob<'_, '_, '_>,
    store: &mut S,
    pages: &[Page],
    missed: &[Missed],
    errors: &mut E,
) -> u8
    requires request { request_in of.now.request.now ≡ request_by of.now.job.now.options.items }
    requires asked { IsOfFiles (job_in of.now.job.now) of.now.job.now.options.items }
    requires apart { AreApart pages.now }
    ensures written { WritesJob (job_in of.now.job.now) of.now.job.now.options.items pages.now
        (missed_in missed.now) (S.changes store.old) (S.changes store.new)
        (stream E.contents E.has_failed errors.old errors.new) result }
    ensures status { result ≤ 1 }
{
    let Ok(led) = led_pages(of.alloc, of.job, pages) else {
        return fail_memory(errors);
    };
    let options = of.job.options.as_slice();
    let conversion = Requested {
        alloc: of.alloc,
        options,
        request: of.request,
        pages: led.as_ref(),
    };
    convert_files(
        of.alloc,
        store,
        &conversion,
        pages,
        missed,
        errors,
        options_of(of.job, of.is_terminal && !of.request.explains()),
    )
}

// Converts a file into the sink, and answers the status.
fn show_file<S: Store, W: Sink, E: Sink>(
    store: &mut S,
    conversion: &Requested<'_, '_, '_, '_>,
    input: &str,
    sink: &mut W,
    errors: &mut E,
) -> u8
    requires { W.has_failed sink.old ≡ false }
    ensures same { Makes (S.changes store.old) (S.changes store.new) [] }
    ensures shown { ShowsNamed (request_by conversion.now.options.now) (S.changes store.old) input.now
        (stream W.contents W.has_failed sink.old sink.new) result
        ⊎ (SaysMemory (stream E.contents E.has_failed errors.old errors.new)
        × (sink.new ≡ sink.old) × (result ≡ 1)) }
    ensures status { result ≤ 1 }
{
    match store.open(input) {
        Ok(mut reader) => show_opened(&mut reader, conversion, input, sink, errors),
        Err(fault) => fail_open(errors, input, &fault),
    }
}

// Converts what a source gives into the sink, and answers the status.
fn show_opened<R: Source, W: Sink, E: Sink>(
    source: &mut R,
    conversion: &Requested<'_, '_, '_, '_>,
    input: &str,
    sink: &mut W,
    errors: &mut E,
) -> u8
    requires source { R.has_failed source.old ≡ false }
    requires sink { W.has_failed sink.old ≡ false }
    ensures shown { Shows (request_for_file input.now (request_by conversion.now.options.now)) (R.remaining source.old)
        (stream W.contents W.has_failed sink.old sink.new) result }
    ensures status { result ≤ 1 }
{
    match conversion.convert_alone(input, source, sink, errors) {
        Ok(()) => 0,
        Err(fault) => {
            conversion.report(input, &fault, errors);
            1
        }
    }
}

fn options_of(job: &Job<'_>, is_terminal: bool) -> RunOptions
    ensures { result.keeps_newer ≡ job.now.keeps_newer }
{
    RunOptions {
        keeps_newer: job.keeps_newer,
        progress: progress_of(job, is_terminal),
    }
}

fn progress_of(job: &Job<'_>, is_terminal: bool) -> Progress {
    if job.is_quiet {
        Progress::Quiet
    } else if job.shows_progress || is_terminal {
        Progress::Count
    } else {
        Progress::Total
    }
}

// Converts the pages of a plan, says what could not be read, and answers the status.
fn convert_files<S: Store, C: Conversion, E: Sink>(
    alloc: Global,
    store: &mut S,
    conversion: &C,
    pages: &[Page],
    missed: &[Missed],
    errors: &mut E,
    options: RunOptions,
) -> u8
    requires { AreApart pages.now }
    ensures taken { (left : ℕ) × (failed : ℕ)
        × WritesPages (or_copy (C.becomes conversion.now)) options.keeps_newer pages.now
        (missed_in missed.now) (S.changes store.old) (S.changes store.new) left failed result }
    ensures status { result ≤ 1 }
{
    for item in missed {
        let path = ShownName(&item.path);
        let cause = &item.cause;
        let _ = writeln!(Lines { sink: errors }, "htmd: {path}: {cause}");
    }
    let tally = run_pages(alloc, store, conversion, pages, errors, options);
    let count = missed.len();
    if pages.len().saturating_add(count) > 1 {
        let failed = tally.failed.saturating_add(count as u64);
        write_total(errors, options.progress, Tally { failed, ..tally });
    }
    status_of(tally.failed, count)
}

// The status of a run of which so many pages failed, and so many names are missed.
fn status_of(failed: u64, missed: usize) -> u8
    ensures success { (result ≡ 0) ↔ ((failed ≡ 0) × (missed ≡ 0)) }
    ensures status { result ≤ 1 }
{
    if failed == 0 && missed == 0 { 0 } else { 1 }
}

// Says what went wrong, and answers the status.
fn fail<E: Sink, T: Display>(errors: &mut E, fault: &T, status: u8) -> u8
    ensures { result ≡ status }
{
    let _ = writeln!(Lines { sink: errors }, "htmd: {fault}");
    status
}

// Says why the words are no job, and answers the status.
fn fail_words<E: Sink>(errors: &mut E, fault: &WordFault<'_>) -> u8
    ensures memory { fault.now ≡ WordFault.Memory
        → SaysMemory (stream E.contents E.has_failed errors.old errors.new) × (result ≡ 1) }
    ensures other { fault.now ≢ WordFault.Memory → result ≡ 2 }
    ensures status { result ≤ 2 }
{
    match fault {
        WordFault::Memory => fail_memory(errors),
        _ => fail(errors, fault, 2),
    }
}

// Says why options aren't taken, and answers the status.
fn fail_options<E: Sink>(errors: &mut E, fault: &OptionFault<'_>) -> u8
    ensures memory { fault.now ≡ OptionFault.Memory
        → SaysMemory (stream E.contents E.has_failed errors.old errors.new) × (result ≡ 1) }
    ensures other { fault.now ≢ OptionFault.Memory → result ≡ 2 }
    ensures status { result ≤ 2 }
{
    match fault {
        OptionFault::Memory => fail_memory(errors),
        _ => {
            say_fault(errors, fault);
            2
        }
    }
}

// Says of an input under whose name there is nothing that this is so.
#[tactic(auto, using(crate::proofs::ProgramsLemmas::nothing_made, crate::proofs::ProgramsLemmas::made_then))]
fn say_missing<S: Store, E: Sink>(store: &mut S, errors: &mut E, input: &str)
    ensures { Makes (S.changes store.old) (S.changes store.new) [] }
{
    if input == "-" {
        return;
    }
    if let Err(fault) = store.is_folder(input) {
        let input = Unopened { input, fault };
        let _ = writeln!(Lines { sink: errors }, "htmd: {input}");
    }
}

// Says why there is no plan, and answers the status. Of several inputs, one may have been meant as a value.
#[tactic(auto, using(crate::proofs::ProgramsLemmas::nothing_made, crate::proofs::ProgramsLemmas::made_then))]
fn fail_plan<S: Store, E: Sink>(store: &mut S, errors: &mut E, fault: &PlanFault) -> u8
    ensures same { Makes (S.changes store.old) (S.changes store.new) [] }
    ensures memory { fault.now ≡ PlanFault.Memory
        → SaysMemory (stream E.contents E.has_failed errors.old errors.new) × (result ≡ 1) }
    ensures other { fault.now ≢ PlanFault.Memory → result ≡ 2 }
    ensures status { result ≤ 2 }
{
    match fault {
        PlanFault::Memory => fail_memory(errors),
        PlanFault::Several { first, second } => {
            say_missing(store, errors, first);
            say_missing(store, errors, second);
            fail(errors, fault, 2)
        }
        _ => fail(errors, fault, 2),
    }
}

// Says why a file is not opened, and answers the status.
fn fail_open<E: Sink>(errors: &mut E, input: &str, fault: &StoreFault) -> u8
    ensures memory { fault.now ≡ StoreFault.Failed ErrorKind.OutOfMemory
        → SaysMemory (stream E.contents E.has_failed errors.old errors.new) }
    ensures status { result ≡ 1 }
{
    match fault {
        StoreFault::Failed(ErrorKind::OutOfMemory) => fail_memory(errors),
        _ => {
            let input = Unopened {
                input,
                fault: *fault,
            };
            fail(errors, &input, 1)
        }
    }
}

// Says that memory ran out, and answers the status.
fn fail_memory<E: Sink>(errors: &mut E) -> u8
    ensures said { SaysMemory (stream E.contents E.has_failed errors.old errors.new) }
    ensures status { result ≡ 1 }
{
    let _ = write_all(errors, OUT_OF_MEMORY);
    1
}
