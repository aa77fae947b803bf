//! One page, or one file that is copied: from its input to its output.
ghost use Rattle.std.specs.Prelude.{◌≡◌, ◌∷◌, [], false, IfOk, IfSome, OnOk, OnErr, string_bytes};
ghost use Rattle.htmd_folders.specs.Changes.{IsNew, Makes, created};
ghost use Rattle.htmd_folders.specs.Pages.{Becomes, Converts, Fails, IsMadeFor, IsUnfinishedName, Writes, or_copy};

use crate::conversion::Conversion;
use crate::copies::copy;
use crate::faults::{PageFault, StoreFault};
use crate::store::Store;
use htmd_files::{Page, UNFINISHED};
use htmd_streams::{Sink, Source};
use std::alloc::{AllocError, Global};

/// How many names are tried for an unfinished output.
const MOST_NAMES: u32 = 1000;

/// The file beside an output that is being written.
pub(crate) struct Unfinished<W> {
    name: String,
    writer: W,
}

/// Converts a page, or copies a file as it is. What it becomes is written to a new file beside the output, which is
/// brought under the output's name when it is whole. Folders that are missing above the output are made. If the page
/// fails, the output stays as it was, and the file beside it is removed.
pub fn convert_to_file<S: Store, C: Conversion, E: Sink>(
    alloc: Global,
    store: &mut S,
    conversion: &C,
    page: &Page,
    errors: &mut E,
) -> Result<(), PageFault<C::Fault>>
    ensures ok { OnOk result (Converts (or_copy (C.becomes conversion.now)) page.now
        (S.changes store.old) (S.changes store.new)) }
    ensures err { OnErr result (Fails page.now (S.changes store.old) (S.changes store.new)) }
{
    match store.open(&page.input) {
        Ok(mut reader) => write_page(alloc, store, conversion, &mut reader, page, errors),
        Err(fault) => Err(PageFault::Input(fault)),
    }
}

// Converts a page whose bytes a source gives.
fn write_page<S: Store, C: Conversion, R: Source, E: Sink>(
    alloc: Global,
    store: &mut S,
    conversion: &C,
    source: &mut R,
    page: &Page,
    errors: &mut E,
) -> Result<(), PageFault<C::Fault>>
    requires { R.has_failed source.old ≡ false }
    ensures ok { OnOk result (IfSome (S.changes store.old) (λ past. IfSome (R.remaining source.old)
        (λ bytes. Writes (or_copy (C.becomes conversion.now)) page.now bytes past (S.changes store.new)))) }
    ensures err { OnErr result (Fails page.now (S.changes store.old) (S.changes store.new)) }
{
    let Unfinished { name, mut writer } = match create_below(alloc, store, &page.output) {
        Ok(unfinished) => unfinished,
        Err(fault) => return Err(PageFault::Output(fault)),
    };
    match fill(conversion, page, source, &mut writer, errors) {
        Ok(()) => match store.publish(writer, &name, &page.output) {
            Ok(()) => Ok(()),
            Err(fault) => Err(PageFault::Output(fault)),
        },
        Err(fault) => {
            store.discard(writer, &name);
            Err(fault)
        }
    }
}

// Writes what a page becomes to a file, or copies it there.
fn fill<C: Conversion, R: Source, W: Sink, E: Sink>(
    conversion: &C,
    page: &Page,
    source: &mut R,
    writer: &mut W,
    errors: &mut E,
) -> Result<(), PageFault<C::Fault>>
    requires source { R.has_failed source.old ≡ false }
    requires sink { W.has_failed writer.old ≡ false }
    ensures { OnOk result (Becomes (or_copy (C.becomes conversion.now) page.now)
        (R.remaining source.old) (W.contents writer.old) (W.contents writer.new)) }
{
    if page.is_copy {
        return match copy(source, writer) {
            Ok(()) => Ok(()),
            Err(fault) => Err(PageFault::Copy(fault)),
        };
    }
    match conversion.convert(page, source, writer, errors) {
        Ok(()) => Ok(()),
        Err(fault) => Err(PageFault::Conversion(fault)),
    }
}

// Makes the file beside an output, and the folders that are missing above it.
fn create_below<S: Store>(
    alloc: Global,
    store: &mut S,
    output: &str,
) -> Result<Unfinished<S::Writer>, StoreFault>
    ensures empty { IfOk result (λ made. IsNew (S.changes store.old) (S.Writer.contents made.writer)) }
    ensures unfailed { IfOk result (λ made. S.Writer.has_failed made.writer ≡ false) }
    ensures free { IfOk result (λ made. IfSome (S.changes store.old) (IsMadeFor output.now (string_bytes made.name))) }
    ensures ok { IfOk result (λ made. Makes (S.changes store.old) (S.changes store.new)
        (created (string_bytes made.name) ∷ [])) }
    ensures err { OnErr result (Makes (S.changes store.old) (S.changes store.new) []) }
{
    if let Some((folder, _)) = output.rsplit_once('/')
        && !folder.is_empty()
    {
        store.make_folder(folder)?;
    }
    create_beside(alloc, store, output)
}

// Makes the file beside an output under the first of its names where nothing is.
fn create_beside<S: Store>(
    alloc: Global,
    store: &mut S,
    output: &str,
) -> Result<Unfinished<S::Writer>, StoreFault>
    ensures empty { IfOk result (λ made. IsNew (S.changes store.old) (S.Writer.contents made.writer)) }
    ensures unfailed { IfOk result (λ made. S.Writer.has_failed made.writer ≡ false) }
    ensures free { IfOk result (λ made. IfSome (S.changes store.old) (IsMadeFor output.now (string_bytes made.name))) }
    ensures ok { IfOk result (λ made. Makes (S.changes store.old) (S.changes store.new)
        (created (string_bytes made.name) ∷ [])) }
    ensures err { OnErr result (Makes (S.changes store.old) (S.changes store.new) []) }
{
    for number in 0..MOST_NAMES {
        let name = unfinished_name(alloc, output, number)?;
        match store.create(&name) {
            Ok(writer) => return Ok(Unfinished { name, writer }),
            Err(StoreFault::Taken) => {}
            Err(fault) => return Err(fault),
        }
    }
    Err(StoreFault::Taken)
}

// A name for the file beside an output. `Err` means out of memory.
#[tactic(auto, using(crate::proofs::ChangesLemmas::marked))]
fn unfinished_name(alloc: Global, output: &str, number: u32) -> Result<String, AllocError>
    ensures { IfOk result (λ name. IsUnfinishedName output.now (string_bytes name)) }
{
    let mark = format!(in alloc; ".{number}")?;
    let mut name = String::from_str(alloc, output)?;
    name.push_str(&mark)?;
    name.push_str(UNFINISHED)?;
    Ok(name)
}
