//! The program: its options, its statuses, and its lines on the sink for errors.
ghost use Rattle.std.specs.Prelude.{◌≡◌, ◌≢◌, ◌≤◌, false, true};
ghost use Rattle.std.specs.List.{list_any};
ghost use Rattle.std.specs.Io.KnownBytes.{IsAtEnd, Keeps};
ghost use Rattle.htmd_cli.specs.Rows.{AnswersSome, Succeeds};
ghost use Rattle.htmd_cli.specs.OptionRows.{request_in};
ghost use Rattle.htmd_cli.specs.Options.{are_known, request_by, takes_memory};

use crate::faults::RunError;
use crate::help::show;
use crate::option_faults::{say_fault, say_warnings};
use crate::pipeline::run_over;
use crate::reports::{Lines, explain_article, report_input};
use crate::requests::{OptionFault, Request, read_options};
use crate::rows::run_rows;
use htmd_streams::{Failed, Sink, Source};
use std::alloc::Global;
use std::fmt::{Display, Write};

/// The program: reads its options, converts the source into the sink, and returns the exit status. 0 is success, 1 a
/// run that did not succeed and 2 an option that is not known, or not with its value. If the options request the help
/// or the version, that is written to the sink in place of a conversion, and nothing is read. What went wrong is a line
/// on the sink for errors; with `--explain`, if an input is refused or isn't UTF-8, that sink also gets where and why,
/// and with `--article` what the main content is and why. Faults of that sink are ignored. The source and the sink must
/// not have failed before.
#[tactic(auto, using(std::proofs::lemmas::Grind::common_steps, crate::proofs::FailuresLemmas::is_unknown))]
pub fn command<R: Source, W: Sink, E: Sink>(
    alloc: Global,
    options: &[String],
    source: &mut R,
    sink: &mut W,
    errors: &mut E,
) -> u8
    requires source { R.has_failed source.old ≡ false }
    requires sink { W.has_failed sink.old ≡ false }
    ensures success { result ≡ 0 → (request_by options.now).shows ≡ false → Succeeds (request_by options.now)
        (R.remaining source.old) (W.contents sink.old) (W.contents sink.new) }
    ensures end { result ≡ 0 → (request_by options.now).shows ≡ false → (request_by options.now).rows ≡ false
        → IsAtEnd (R.remaining source.new) }
    ensures no_failure { result ≡ 0 →
        (R.has_failed source.new ≡ false) × (W.has_failed sink.new ≡ false) }
    ensures nothing_written { result ≢ 0 → (request_by options.now).rows ≡ false
        → W.has_failed sink.new ≡ false → sink.new ≡ sink.old }
    ensures rows_written { result ≢ 0 → (request_by options.now).rows ≡ true → W.has_failed sink.new ≡ false
        → AnswersSome (request_by options.now)
        (R.remaining source.old) (W.contents sink.old) (W.contents sink.new) }
    ensures unknown { result ≡ 2 → are_known options.now ≡ false }
    ensures known { are_known options.now ≡ false → list_any takes_memory options.now ≡ false → result ≡ 2 }
    ensures never_converted { are_known options.now ≡ false → result ≢ 0 }
    ensures nothing_read { result ≡ 2 → Keeps (R.remaining source.old) (R.remaining source.new) }
    ensures shown { (request_by options.now).shows ≡ true
        → Keeps (R.remaining source.old) (R.remaining source.new) }
    ensures status { result ≤ 2 }
{
    let request = match read_options(alloc, options) {
        Ok(request) => request,
        Err(OptionFault::Memory) => return failed(errors, &RunError::Memory),
        Err(fault) => {
            say_fault(errors, &fault);
            return 2;
        }
    };
    say_warnings(errors, &request);
    match request.shows {
        Some(notice) => match show(sink, notice) {
            Ok(()) => 0,
            Err(_) => failed(errors, &RunError::Write),
        },
        None => run_request(alloc, request, source, sink, errors),
    }
}

// Says what went wrong, and answers the status.
fn failed<E: Sink, T: Display>(errors: &mut E, fault: &T) -> u8
    ensures { result ≡ 1 }
{
    let _ = writeln!(Lines { sink: errors }, "htmd: {fault}");
    1
}

// Converts the source into the sink, a page or rows with a page each, and answers the status.
fn run_request<R: Source, W: Sink, E: Sink>(
    alloc: Global,
    request: Request<'_>,
    source: &mut R,
    sink: &mut W,
    errors: &mut E,
) -> u8
    requires source { R.has_failed source.old ≡ false }
    requires sink { W.has_failed sink.old ≡ false }
    ensures success { result ≡ 0 → Succeeds (request_in request.entry)
        (R.remaining source.old) (W.contents sink.old) (W.contents sink.new) }
    ensures end { result ≡ 0 → request.entry.rows ≡ false → IsAtEnd (R.remaining source.new) }
    ensures no_failure { result ≡ 0 →
        (R.has_failed source.new ≡ false) × (W.has_failed sink.new ≡ false) }
    ensures nothing_written { result ≢ 0 → request.entry.rows ≡ false → W.has_failed sink.new ≡ false
        → sink.new ≡ sink.old }
    ensures rows_written { result ≢ 0 → request.entry.rows ≡ true → W.has_failed sink.new ≡ false
        → AnswersSome (request_in request.entry)
        (R.remaining source.old) (W.contents sink.old) (W.contents sink.new) }
    ensures status { result ≤ 1 }
{
    let Request {
        settings,
        rows,
        explains,
        ..
    } = request;
    if rows {
        return match run_rows(alloc, source, sink, errors, &settings, explains) {
            Ok(()) => 0,
            Err(fault) => failed(errors, &fault),
        };
    }
    match run_over(alloc, source, sink, &settings) {
        (Ok(()), input) => {
            if explains && settings.article {
                explain_article(alloc, errors, &settings, input.as_slice());
            }
            0
        }
        (Err(error), input) => {
            report_input(errors, &error, input.as_slice(), explains);
            1
        }
    }
}
