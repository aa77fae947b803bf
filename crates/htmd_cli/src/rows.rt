//! A batch: rows with a page each, which are answered as they come in.
ghost use Rattle.std.specs.Prelude.{◌≡◌, ◌≢◌, ◌↔◌, ◌+◌, ◌<◌, ◌++◌, [], ℕ, List, length, true, false, IsTrue};
ghost use Rattle.std.specs.Prelude.{IfOk, IfErr, OnOk, OnErr, IsErrAnd};
ghost use Rattle.std.specs.Io.KnownBytes.{Appends};
ghost use Rattle.htmd.specs.Characters.{line_feed};
ghost use Rattle.htmd_cli.specs.Batches.{Answers, followed, rows_from, rows_left};
ghost use Rattle.htmd_streams.specs.Ends.{AppendsSome, FailsAtErr};
ghost use Rattle.htmd_cli.specs.Failures.{IsRowFault};
ghost use Rattle.htmd_streams.specs.Lines.{lacks, rows};
ghost use Rattle.htmd_cli.specs.Rows.{ConvertsRows, IsRowAnswer, StopsAtRow, StopsInRows, counted};
ghost use Rattle.htmd.specs.PageConverters.{IsReady, settings_of};
ghost use Rattle.htmd.specs.PageSettings.{settings_in};

use crate::answers::answer_row;
use crate::faults::{RowFault, RunError};
use crate::reports::report;
use htmd::element_handler::Registry;
use htmd::{HtmlToMarkdown, PageConverter, PageSettings};
use htmd_streams::{Failed, Sink, Source, parted, write_all};
use std::alloc::{AllocError, Global};

const BUFFER_SIZE: usize = 65536;

/// The line that ends the data.
const END_MARK: &[u8] = b"\\.";

/// Reads rows, and writes each again with what its last field becomes in that field's place. Rows go
/// out before the next read, and nothing is written of a row that isn't answered. A page that is refused
/// gets a line on the sink for errors, and the row's last field is then null; with `explains` that sink
/// gets more. An `Err` has the number of the row at which the run ended, from 1: the first one that
/// isn't answered, or after `Write` the last one that is.
pub fn run_rows<R: Source, W: Sink, E: Sink>(
    alloc: Global,
    source: &mut R,
    sink: &mut W,
    errors: &mut E,
    settings: &PageSettings<'_>,
    explains: bool,
) -> Result<(), RowFault>
    requires source { R.has_failed source.old ≡ false }
    requires sink { W.has_failed sink.old ≡ false }
    ensures ok { OnOk result (ConvertsRows (settings_in settings.now)
        (R.remaining source.old) (W.contents sink.old) (W.contents sink.new)) }
    ensures stops { IfErr result (λ fault. fault.error ≢ RunError.Write
        → StopsAtRow (settings_in settings.now) fault.row
        (R.remaining source.old) (W.contents sink.old) (W.contents sink.new)) }
    ensures write { IfErr result (λ fault. fault.error ≡ RunError.Write
        → StopsInRows (settings_in settings.now) fault.row
        (R.remaining source.old) (W.contents sink.old) (W.contents sink.new)) }
    ensures faults { IfErr result (λ fault. IsRowFault fault.error) }
    ensures read_failed { IsErrAnd result (λ fault. fault.error ≡ RunError.Read)
        ↔ IsTrue (R.has_failed source.new) }
    ensures write_failed { IsErrAnd result (λ fault. fault.error ≡ RunError.Write)
        ↔ IsTrue (W.has_failed sink.new) }
{
    let Ok(builder) = HtmlToMarkdown::builder(alloc) else {
        return Err(first_row_fault());
    };
    let Ok(converter) = PageConverter::new(builder, settings) else {
        return Err(first_row_fault());
    };
    answer_all(alloc, &converter, source, sink, errors, explains)
}

// Out of memory before the first row.
fn first_row_fault() -> RowFault
    ensures row { result.row ≡ 1 }
    ensures error { result.error ≡ RunError.Memory }
{
    RowFault {
        row: 1,
        error: RunError::Memory,
    }
}

// The fault when the answers to this many rows can't be written.
fn write_fault(answered: u64) -> RowFault
    ensures row { result.row ≡ counted answered }
    ensures error { result.error ≡ RunError.Write }
{
    RowFault {
        row: answered,
        error: RunError::Write,
    }
}

// The same by a converter.
fn answer_all<H: Registry, R: Source, W: Sink, E: Sink>(
    alloc: Global,
    converter: &PageConverter<'_, '_, H>,
    source: &mut R,
    sink: &mut W,
    errors: &mut E,
    explains: bool,
) -> Result<(), RowFault>
    requires ready { IsReady H.ready H.config converter.now }
    requires source { R.has_failed source.old ≡ false }
    requires sink { W.has_failed sink.old ≡ false }
    ensures ok { OnOk result (ConvertsRows (settings_of converter.now)
        (R.remaining source.old) (W.contents sink.old) (W.contents sink.new)) }
    ensures stops { IfErr result (λ fault. fault.error ≢ RunError.Write
        → StopsAtRow (settings_of converter.now) fault.row
        (R.remaining source.old) (W.contents sink.old) (W.contents sink.new)) }
    ensures write { IfErr result (λ fault. fault.error ≡ RunError.Write
        → StopsInRows (settings_of converter.now) fault.row
        (R.remaining source.old) (W.contents sink.old) (W.contents sink.new)) }
    ensures faults { IfErr result (λ fault. IsRowFault fault.error) }
    ensures read_failed { IsErrAnd result (λ fault. fault.error ≡ RunError.Read)
        ↔ IsTrue (R.has_failed source.new) }
    ensures write_failed { IsErrAnd result (λ fault. fault.error ≡ RunError.Write)
        ↔ IsTrue (W.has_failed sink.new) }
{
    let mut batch = Batch::new(alloc, explains);
    let mut buffer = [0u8; BUFFER_SIZE];
    for _ in 0..u64::MAX {
        let Ok(count) = source.read(&mut buffer) else {
            return Err(batch.fault(RunError::Read));
        };
        let outcome = batch.take_read(converter, &buffer[..count], errors);
        match batch.hand_on(sink) {
            Ok(()) => {}
            Err(_) => return Err(write_fault(batch.answered)),
        }
        match outcome {
            Ok(true) => {}
            Ok(false) => return Ok(()),
            Err(AllocError) => return Err(batch.fault(RunError::Memory)),
        }
    }
    // No source is read this many times.
    Err(batch.fault(RunError::Memory))
}

/// The row that comes in, and the answers that wait.
#[derive(Drop)]
struct Batch {
    alloc: Global,
    // The sink for errors also gets where and why a page is refused.
    explains: bool,
    // What was read of the row that isn't answered.
    begun: Vec<u8>,
    // The page of the last row, and what was written of its answer.
    page: Vec<u8>,
    answer: Vec<u8>,
    // The answers that are to be written.
    answers: Vec<u8>,
    // How many rows were answered.
    answered: u64,
}

impl Batch {
    fn new(alloc: Global, explains: bool) -> Batch
        ensures begun { result.begun.items ≡ [] }
        ensures answers { result.answers.items ≡ [] }
        ensures answered { result.answered ≡ 0 }
    {
        Batch {
            alloc,
            explains,
            begun: Vec::new(alloc),
            page: Vec::new(alloc),
            answer: Vec::new(alloc),
            answers: Vec::new(alloc),
            answered: 0,
        }
    }

    // The fault at the row that isn't answered.
    fn fault(&self, error: RunError) -> RowFault
        ensures row { result.row ≡ counted (self.now.answered + 1) }
        ensures error { result.error ≡ error }
    {
        RowFault {
            row: self.answered.saturating_add(1),
            error,
        }
    }

    // Takes what was read; no bytes mean the end. It is false if no row follows.
    fn take_read<H: Registry, E: Sink>(
        &mut self,
        converter: &PageConverter<'_, '_, H>,
        bytes: &[u8],
        errors: &mut E,
    ) -> Result<bool, AllocError>
        requires ready { IsReady H.ready H.config converter.now }
        requires begun { lacks line_feed self.old.begun.items ≡ true }
        ensures ok { IfOk result (λ goes_on. Answers (settings_of converter.now)
            (λ tail. rows_from self.old.begun.items (followed bytes.now tail))
            (rows_left goes_on self.new.begun.items)
            self.old.answers.items self.new.answers.items self.old.answered self.new.answered) }
        ensures err { OnErr result ((rest : List ℕ → List (List ℕ)) × Answers (settings_of converter.now)
            (λ tail. rows_from self.old.begun.items (followed bytes.now tail)) rest
            self.old.answers.items self.new.answers.items self.old.answered self.new.answered) }
        ensures begun { IfOk result (λ goes_on. goes_on ≡ true → lacks line_feed self.new.begun.items ≡ true) }
        ensures end { IfOk result (λ goes_on. goes_on ≡ true → 0 < length bytes.now) }
    {
        if bytes.is_empty() {
            self.take_end(converter, errors)?;
            return Ok(false);
        }
        self.take(converter, bytes, errors)
    }

    // Answers the row that is open at the end, if there is one.
    fn take_end<H: Registry, E: Sink>(
        &mut self,
        converter: &PageConverter<'_, '_, H>,
        errors: &mut E,
    ) -> Result<(), AllocError>
        requires ready { IsReady H.ready H.config converter.now }
        requires begun { lacks line_feed self.old.begun.items ≡ true }
        ensures ok { OnOk result (Answers (settings_of converter.now)
            (λ _. rows self.old.begun.items) (λ _. [])
            self.old.answers.items self.new.answers.items self.old.answered self.new.answered) }
        ensures err { OnErr result ((rest : List ℕ → List (List ℕ)) × Answers (settings_of converter.now)
            (λ _. rows self.old.begun.items) rest
            self.old.answers.items self.new.answers.items self.old.answered self.new.answered) }
    {
        if self.begun.is_empty() {
            return Ok(());
        }
        if self.begun.as_slice() == END_MARK {
            return Ok(());
        }
        self.answer_open(converter, errors)
    }

    // Answers each row that ends in these bytes, and keeps what follows. It is false if the data ends.
    fn take<H: Registry, E: Sink>(
        &mut self,
        converter: &PageConverter<'_, '_, H>,
        bytes: &[u8],
        errors: &mut E,
    ) -> Result<bool, AllocError>
        requires ready { IsReady H.ready H.config converter.now }
        requires begun { lacks line_feed self.old.begun.items ≡ true }
        ensures ok { IfOk result (λ goes_on. Answers (settings_of converter.now)
            (λ tail. rows_from self.old.begun.items (bytes.now ++ tail))
            (rows_left goes_on self.new.begun.items)
            self.old.answers.items self.new.answers.items self.old.answered self.new.answered) }
        ensures err { OnErr result ((rest : List ℕ → List (List ℕ)) × Answers (settings_of converter.now)
            (λ tail. rows_from self.old.begun.items (bytes.now ++ tail)) rest
            self.old.answers.items self.new.answers.items self.old.answered self.new.answered) }
        ensures begun { OnOk result (lacks line_feed self.new.begun.items ≡ true) }
    {
        let mut rest = bytes;
        while let Some((front, behind)) = parted(rest, b'\n') {
            self.begun.extend_from_slice(front)?;
            if self.begun.as_slice() == END_MARK {
                return Ok(false);
            }
            self.answer_open(converter, errors)?;
            rest = behind;
        }
        self.begun.extend_from_slice(rest)?;
        Ok(true)
    }

    // Answers the row that is open, and opens the next one.
    fn answer_open<H: Registry, E: Sink>(
        &mut self,
        converter: &PageConverter<'_, '_, H>,
        errors: &mut E,
    ) -> Result<(), AllocError>
        requires ready { IsReady H.ready H.config converter.now }
        ensures ok { OnOk result ((written : List ℕ) × IsRowAnswer (settings_of converter.now)
            self.old.begun.items written × (self.new.answers.items ≡ self.old.answers.items ++ written)) }
        ensures next { OnOk result (self.new.begun.items ≡ []) }
        ensures answered { OnOk result (self.new.answered ≡ counted (self.old.answered + 1)) }
        ensures err { OnErr result (self.new.answers.items ≡ self.old.answers.items) }
        ensures err_answered { OnErr result (self.new.answered ≡ self.old.answered) }
    {
        self.page.clear();
        self.answer.clear();
        let refused = answer_row(
            self.alloc,
            converter,
            self.begun.as_slice(),
            &mut self.page,
            &mut self.answer,
        )?;
        self.answers.extend_from_slice(self.answer.as_slice())?;
        self.answered = self.answered.saturating_add(1);
        self.begun.clear();
        if let Some(error) = refused {
            report(
                errors,
                self.answered,
                &error,
                self.page.as_slice(),
                self.explains,
            );
        }
        Ok(())
    }

    // Writes the answers that wait, and flushes them.
    fn hand_on<W: Sink>(&mut self, sink: &mut W) -> Result<(), Failed>
        ensures bytes { OnOk result (Appends (W.contents sink.old) (W.contents sink.new) self.old.answers.items) }
        ensures empty { OnOk result (self.new.answers.items ≡ []) }
        ensures part { OnErr result (AppendsSome (W.contents sink.old) (W.contents sink.new) self.old.answers.items) }
        ensures begun { self.new.begun.items ≡ self.old.begun.items }
        ensures answered { self.new.answered ≡ self.old.answered }
        ensures failure { FailsAtErr result (W.has_failed sink.old) (W.has_failed sink.new) }
    {
        if self.answers.is_empty() {
            return Ok(());
        }
        write_all(sink, self.answers.as_slice())?;
        sink.flush()?;
        self.answers.clear();
        Ok(())
    }
}
