//! The plan: which pages are read and which files are copied, in which order, and where the output of each is written.
ghost use Rattle.std.specs.Prelude.{◌≡◌, [], ◌∷◌, ◌++◌, false, map, find, None, Some, Ok, IfOk, IfErr, OnOk};
ghost use Rattle.std.specs.Prelude.{string_bytes};
ghost use Rattle.std.specs.Prelude.{filter, option_copied, option_map};
ghost use Rattle.htmd_files.specs.Names as names;
ghost use Rattle.htmd_files.specs.NameViews.{kind_of};
ghost use Rattle.htmd_files.specs.Paths as paths;
ghost use Rattle.htmd_files.specs.FilePlans as spec;
ghost use Rattle.htmd_files.specs.PlaceViews.{place_in, texts};
ghost use Rattle.htmd_files.specs.PlanViews.{operand_of, destination_of, page_of, pages_of, plan_in, IsRefusal};
ghost use Rattle.htmd_files.specs.PlanViews.{HoldsOutputs};
ghost use Rattle.htmd_files.specs.Promises.{AreApart, KeepInputs, AreBelow, AreNamed, pages_in as pages_written};
ghost use Rattle.htmd_files.specs.WordViews.{texts_of};

use crate::faults::PlanFault;
use crate::names::{Naming, PageKind, is_hidden, is_page, is_unfinished, with_extension};
use crate::places::{Place, is_within, normal_path, place_of};
use std::alloc::{AllocError, Global};
use std::collections::BTreeMap;

/// What the file system has where an operand leads.
#[derive(Drop)]
pub enum Operand {
    /// `-`.
    StandardInput,
    /// A file, or nothing.
    File(String),
    /// A folder, and the paths of all files below it, whose names have slashes between them.
    Folder { path: String, files: Vec<String> },
}

/// What `-o` names.
#[derive(Clone, Copy)]
pub struct Destination<'a> {
    pub path: &'a str,
    /// It is a folder which is there.
    pub is_folder: bool,
    /// Which files of a folder are pages, and how outputs in a folder are named.
    pub naming: Naming<'a>,
    /// Files of a folder that are no pages are copied.
    pub copies: bool,
}

/// A page, or a file that is copied, by the path that is read, which is `-` for standard input, and the one that is
/// written.
#[derive(Drop)]
pub struct Page {
    pub input: String,
    pub output: String,
    /// Its path from the folder on that was named, if it was found below one.
    pub path_in_folder: Option<String>,
    /// It is a file that is copied.
    pub is_copy: bool,
}

/// What is to be done.
#[derive(Drop)]
pub enum FilePlan {
    /// The input, which is `-` for standard input, is converted to standard output.
    StandardOutput { input: String },
    /// The pages are converted to files, in this order.
    Files { pages: Vec<Page> },
}

impl Operand {
    /// The path as it was given.
    fn path(&self) -> &str
        ensures { result.now ≡ spec.path_of (operand_of self.now) }
    {
        match self {
            Operand::StandardInput => "-",
            Operand::File(path) => path.as_str(),
            Operand::Folder { path, .. } => path.as_str(),
        }
    }

    /// What is read, unless it is a folder.
    fn input_path(&self) -> Option<&str>
        ensures { option_copied result ≡ spec.input_path (operand_of self.now) }
    {
        match self {
            Operand::StandardInput => Some("-"),
            Operand::File(path) => Some(path.as_str()),
            Operand::Folder { .. } => None,
        }
    }
}

/// The only operand, unless it is a folder.
fn single_input(operands: &[Operand]) -> Option<&str>
    ensures { option_copied result ≡ spec.single_input (map operand_of operands.now) }
{
    match operands {
        [operand] => operand.input_path(),
        _ => None,
    }
}

/// The slash between a folder and what is below it.
fn slash_after(folder: &str) -> &'static str
    ensures { result.now ≡ paths.slash_after folder.now }
{
    if folder.ends_with("/") { "" } else { "/" }
}

/// A path below a folder.
fn joined(alloc: Global, folder: &str, path: &str) -> Result<String, AllocError>
    ensures { IfOk result (λ whole. string_bytes whole ≡ paths.below folder.now path.now) }
{
    let mut whole = String::from_str(alloc, folder)?;
    whole.push_str(slash_after(folder))?;
    whole.push_str(path)?;
    Ok(whole)
}

/// The paths that are those of pages.
fn only_pages<'a>(
    alloc: Global,
    kind: PageKind,
    files: &'a [String],
) -> Result<Vec<&'a str>, AllocError>
    ensures { IfOk result (λ paths.
        texts paths.items ≡ filter (names.is_page (kind_of kind)) (texts_of files.now)) }
{
    let mut paths = Vec::new(alloc);
    for file in files {
        if is_page(kind, file.as_str()) {
            paths.push(file.as_str())?;
        }
    }
    Ok(paths)
}

/// The pages among the files of a folder, in the order of their bytes.
fn pages_among<'a>(
    alloc: Global,
    kind: PageKind,
    files: &'a [String],
) -> Result<Vec<&'a str>, AllocError>
    ensures { IfOk result (λ paths. texts paths.items ≡ spec.pages_among (kind_of kind) (texts_of files.now)) }
{
    let mut paths = only_pages(alloc, kind, files)?;
    paths.sort()?;
    Ok(paths)
}

/// Whether a file of a folder is copied: it is no page, no unfinished output, not hidden, and not below the output, if
/// that is in the folder.
fn is_copied(
    alloc: Global,
    kind: PageKind,
    holds_output: bool,
    output: &Place<'_>,
    folder: &str,
    path: &str,
) -> Result<bool, AllocError>
    ensures { IfOk result (λ is.
        is ≡ spec.is_copied (kind_of kind) holds_output (place_in output.now) folder.now path.now) }
{
    if is_page(kind, path) || is_unfinished(path) || is_hidden(path) {
        return Ok(false);
    }
    if !holds_output {
        return Ok(true);
    }
    let file = joined(alloc, folder, path)?;
    let place = place_of(alloc, file.as_str())?;
    Ok(!place.is_below(output))
}

/// The paths of a folder that are copied.
fn only_copies<'a>(
    alloc: Global,
    kind: PageKind,
    folder: &str,
    files: &'a [String],
    out: &str,
) -> Result<Vec<&'a str>, AllocError>
    ensures { IfOk result (λ copied. texts copied.items ≡ filter
        (spec.is_copied (kind_of kind) (paths.is_within folder.now out.now) (paths.place out.now) folder.now)
        (texts_of files.now)) }
{
    let holds_output = is_within(alloc, folder, out)?;
    let output = place_of(alloc, out)?;
    let mut copied = Vec::new(alloc);
    for file in files {
        if is_copied(alloc, kind, holds_output, &output, folder, file.as_str())? {
            copied.push(file.as_str())?;
        }
    }
    Ok(copied)
}

/// The files of a folder that are copied, in the order of their bytes.
fn copies_among<'a>(
    alloc: Global,
    folder: &str,
    files: &'a [String],
    out: Destination<'_>,
) -> Result<Vec<&'a str>, AllocError>
    ensures { IfOk result (λ copied. texts copied.items
        ≡ spec.copies_among (destination_of out.entry) folder.now (texts_of files.now)) }
{
    if !out.copies {
        return Ok(Vec::new(alloc));
    }
    let mut copied = only_copies(alloc, out.naming.kind, folder, files, out.path)?;
    copied.sort()?;
    Ok(copied)
}

/// A file below a folder that is copied.
fn copy_below(
    alloc: Global,
    folder: &str,
    path: &str,
    out: Destination<'_>,
) -> Result<Page, AllocError>
    ensures { IfOk result (λ page.
        page_of page ≡ spec.copy_below (destination_of out.entry) folder.now path.now) }
{
    Ok(Page {
        input: joined(alloc, folder, path)?,
        output: joined(alloc, out.path, path)?,
        path_in_folder: Some(String::from_str(alloc, path)?),
        is_copy: true,
    })
}

/// A page below a folder.
fn page_below(
    alloc: Global,
    folder: &str,
    path: &str,
    out: Destination<'_>,
) -> Result<Page, AllocError>
    ensures { IfOk result (λ page.
        page_of page ≡ spec.page_below (destination_of out.entry) folder.now path.now) }
{
    let name = with_extension(alloc, out.naming, path)?;
    Ok(Page {
        input: joined(alloc, folder, path)?,
        output: joined(alloc, out.path, name.as_str())?,
        path_in_folder: Some(String::from_str(alloc, path)?),
        is_copy: false,
    })
}

/// Adds pages below a folder.
fn push_paths(
    alloc: Global,
    pages: &mut Vec<Page>,
    folder: &str,
    paths: &[&str],
    out: Destination<'_>,
) -> Result<(), AllocError>
    ensures { OnOk result (pages_of pages.new.items ≡ pages_of pages.old.items
        ++ map (spec.page_below (destination_of out.entry) folder.now) (texts paths.now)) }
{
    for path in paths {
        let page = page_below(alloc, folder, path, out)?;
        pages.push(page)?;
    }
    Ok(())
}

/// Adds files below a folder that are copied.
fn push_copies(
    alloc: Global,
    pages: &mut Vec<Page>,
    folder: &str,
    paths: &[&str],
    out: Destination<'_>,
) -> Result<(), AllocError>
    ensures { OnOk result (pages_of pages.new.items ≡ pages_of pages.old.items
        ++ map (spec.copy_below (destination_of out.entry) folder.now) (texts paths.now)) }
{
    for path in paths {
        let copy = copy_below(alloc, folder, path, out)?;
        pages.push(copy)?;
    }
    Ok(())
}

/// Adds the pages of a folder, and the files of it that are copied.
fn push_folder(
    alloc: Global,
    pages: &mut Vec<Page>,
    folder: &str,
    files: &[String],
    out: Destination<'_>,
) -> Result<(), AllocError>
    ensures { OnOk result (spec.after (pages_of pages.old.items)
        (spec.pages_of (destination_of out.entry) (spec.folder folder.now (texts_of files.now)))
        ≡ Ok (pages_of pages.new.items)) }
{
    let paths = pages_among(alloc, out.naming.kind, files)?;
    push_paths(alloc, pages, folder, paths.as_slice(), out)?;
    let copied = copies_among(alloc, folder, files, out)?;
    push_copies(alloc, pages, folder, copied.as_slice(), out)
}

/// A page whose output has this name, but for the extension.
fn named_page(
    alloc: Global,
    path: &str,
    name: &str,
    out: Destination<'_>,
) -> Result<Page, AllocError>
    ensures { IfOk result (λ page.
        spec.named_page (destination_of out.entry) path.now (Some name.now) ≡ Ok (page_of page ∷ [])) }
{
    let name = with_extension(alloc, out.naming, name)?;
    Ok(Page {
        input: String::from_str(alloc, path)?,
        output: joined(alloc, out.path, name.as_str())?,
        path_in_folder: None,
        is_copy: false,
    })
}

fn no_name(alloc: Global, path: &str) -> Result<PlanFault, AllocError>
    ensures { IfOk result (IsRefusal (Some (spec.no_name path.now))) }
{
    let input = String::from_str(alloc, path)?;
    Ok(PlanFault::NoName { input })
}

/// The page of a file, whose output is named after it.
fn file_page(alloc: Global, path: &str, out: Destination<'_>) -> Result<Page, PlanFault>
    ensures ok { IfOk result (λ page. spec.named_page (destination_of out.entry) path.now
        (paths.file_name (paths.place path.now)) ≡ Ok (page_of page ∷ [])) }
    ensures err { IfErr result (IsRefusal (spec.fault_in (spec.named_page (destination_of out.entry) path.now
        (paths.file_name (paths.place path.now))))) }
{
    let place = place_of(alloc, path)?;
    match place.file_name() {
        Some(name) => Ok(named_page(alloc, path, name, out)?),
        None => Err(no_name(alloc, path)?),
    }
}

/// Adds the pages of an operand.
fn push_pages(
    alloc: Global,
    pages: &mut Vec<Page>,
    operand: &Operand,
    out: Destination<'_>,
) -> Result<(), PlanFault>
    ensures ok { OnOk result (spec.after (pages_of pages.old.items)
        (spec.pages_of (destination_of out.entry) (operand_of operand.now)) ≡ Ok (pages_of pages.new.items)) }
    ensures err { IfErr result (IsRefusal
        (spec.fault_in (spec.pages_of (destination_of out.entry) (operand_of operand.now)))) }
{
    match operand {
        Operand::StandardInput => return Err(no_name(alloc, "-")?),
        Operand::File(path) => {
            let page = file_page(alloc, path.as_str(), out)?;
            pages.push(page)?;
        }
        Operand::Folder { path, files } => {
            push_folder(alloc, pages, path.as_str(), files.as_slice(), out)?;
        }
    }
    Ok(())
}

/// The pages of operands.
fn pages_in(
    alloc: Global,
    operands: &[Operand],
    out: Destination<'_>,
) -> Result<Vec<Page>, PlanFault>
    ensures ok { IfOk result (λ pages.
        spec.pages_in (destination_of out.entry) (map operand_of operands.now) ≡ Ok (pages_of pages.items)) }
    ensures err { IfErr result (IsRefusal
        (spec.fault_in (spec.pages_in (destination_of out.entry) (map operand_of operands.now)))) }
{
    let mut pages = Vec::new(alloc);
    for operand in operands {
        push_pages(alloc, &mut pages, operand, out)?;
    }
    Ok(pages)
}

fn outside(alloc: Global, page: &Page, folder: &str) -> Result<PlanFault, AllocError>
    ensures { IfOk result (IsRefusal
        (Some (spec.outside (page_of page.now).input (page_of page.now).output folder.now))) }
{
    Ok(PlanFault::Outside {
        input: page.input.clone()?,
        output: page.output.clone()?,
        folder: String::from_str(alloc, folder)?,
    })
}

/// Passes if all outputs are below the folder; if not, the first one that isn't, is the fault.
fn check_below(alloc: Global, pages: &[Page], out: &str) -> Result<(), PlanFault>
    ensures ok { OnOk result (find (spec.is_outside out.now) (pages_of pages.now) ≡ None) }
    ensures err { IfErr result (IsRefusal (spec.fault_in (spec.unless_outside out.now (pages_of pages.now)
        (find (spec.is_outside out.now) (pages_of pages.now))))) }
{
    let folder = place_of(alloc, out)?;
    for page in pages {
        let output = place_of(alloc, page.output.as_str())?;
        if !output.is_below(&folder) {
            return Err(outside(alloc, page, out)?);
        }
    }
    Ok(())
}

/// The pages of operands, all below a folder.
fn pages_below(
    alloc: Global,
    operands: &[Operand],
    out: Destination<'_>,
) -> Result<Vec<Page>, PlanFault>
    ensures ok { IfOk result (λ pages.
        spec.pages_below (destination_of out.entry) (map operand_of operands.now) ≡ Ok (pages_of pages.items)) }
    ensures err { IfErr result (IsRefusal
        (spec.fault_in (spec.pages_below (destination_of out.entry) (map operand_of operands.now)))) }
{
    let pages = pages_in(alloc, operands, out)?;
    check_below(alloc, pages.as_slice(), out.path)?;
    Ok(pages)
}

/// The page of an input whose output is named.
fn one_page(alloc: Global, path: &str, out: &str) -> Result<Vec<Page>, AllocError>
    ensures { IfOk result (λ pages. pages_of pages.items
        ≡ record { input = path.now; output = out.now; path_in_folder = None; is_copy = false } ∷ []) }
{
    let mut pages = Vec::new(alloc);
    pages.push(Page {
        input: String::from_str(alloc, path)?,
        output: String::from_str(alloc, out)?,
        path_in_folder: None,
        is_copy: false,
    })?;
    Ok(pages)
}

/// Whether a folder is named.
fn names_folder(out: Destination<'_>) -> bool
    ensures { result ≡ spec.names_folder (destination_of out.entry) }
{
    out.is_folder || out.path.ends_with("/")
}

/// The pages, before it is known whether one is written over another, or over an input.
fn pages_to(
    alloc: Global,
    operands: &[Operand],
    out: Destination<'_>,
) -> Result<Vec<Page>, PlanFault>
    ensures ok { IfOk result (λ pages.
        spec.pages_to (destination_of out.entry) (map operand_of operands.now) ≡ Ok (pages_of pages.items)) }
    ensures err { IfErr result (IsRefusal
        (spec.fault_in (spec.pages_to (destination_of out.entry) (map operand_of operands.now)))) }
{
    match single_input(operands) {
        Some(path) => {
            if names_folder(out) {
                return pages_below(alloc, operands, out);
            }
            Ok(one_page(alloc, path, out.path)?)
        }
        None => pages_below(alloc, operands, out),
    }
}

fn shared(first: &Page, second: &Page) -> Result<PlanFault, AllocError>
    ensures { IfOk result (IsRefusal (Some
        (spec.shared (page_of first.now).input (page_of second.now).input (page_of second.now).output))) }
{
    Ok(PlanFault::Shared {
        first: first.input.clone()?,
        second: second.input.clone()?,
        output: second.output.clone()?,
    })
}

/// The pages by their outputs. If two are the same, the first page whose output an earlier one has, is the fault.
fn by_output(alloc: Global, pages: &[Page]) -> Result<BTreeMap<String, &Page>, PlanFault>
    ensures apart { OnOk result (spec.shared_after [] (pages_of pages.now) ≡ None) }
    ensures ok { IfOk result (HoldsOutputs (pages_of pages.now)) }
    ensures err { IfErr result (IsRefusal (spec.shared_after [] (pages_of pages.now))) }
{
    let mut outputs = BTreeMap::new(alloc);
    for page in pages {
        let path = normal_path(alloc, page.output.as_str())?;
        if let Some(first) = outputs.insert(path, page)? {
            return Err(shared(first, page)?);
        }
    }
    Ok(outputs)
}

fn overwritten(page: &Page, writer: &Page) -> Result<PlanFault, AllocError>
    ensures { IfOk result (IsRefusal
        (Some (spec.overwritten (page_of page.now).input (page_of writer.now).output))) }
{
    Ok(PlanFault::Overwritten {
        input: page.input.clone()?,
        output: writer.output.clone()?,
    })
}

/// Passes if no input is an output; if not, the first one that is, is the fault.
fn check_inputs(
    alloc: Global,
    pages: &[Page],
    outputs: &BTreeMap<String, &Page>,
) -> Result<(), PlanFault>
    requires { HoldsOutputs (pages_of pages.now) outputs.now }
    ensures ok { OnOk result (spec.overwritten_in (pages_of pages.now) (pages_of pages.now) ≡ None) }
    ensures err { IfErr result (IsRefusal (spec.overwritten_in (pages_of pages.now) (pages_of pages.now))) }
{
    for page in pages {
        let path = normal_path(alloc, page.input.as_str())?;
        if let Some(writer) = outputs.get(path.as_str()) {
            return Err(overwritten(page, writer)?);
        }
    }
    Ok(())
}

/// Passes if no output is that of two pages, or an input.
fn check_outputs(alloc: Global, pages: &[Page]) -> Result<(), PlanFault>
    ensures ok { OnOk result (spec.output_fault (pages_of pages.now) ≡ None) }
    ensures err { IfErr result (IsRefusal (spec.output_fault (pages_of pages.now))) }
{
    let outputs = by_output(alloc, pages)?;
    check_inputs(alloc, pages, &outputs)
}

/// The pages that are written to files.
fn files(alloc: Global, operands: &[Operand], out: Destination<'_>) -> Result<Vec<Page>, PlanFault>
    ensures ok { IfOk result (λ pages. spec.if_apart
        (spec.pages_to (destination_of out.entry) (map operand_of operands.now))
        ≡ Ok (spec.files (pages_of pages.items))) }
    ensures err { IfErr result (IsRefusal (spec.fault_in
        (spec.if_apart (spec.pages_to (destination_of out.entry) (map operand_of operands.now))))) }
{
    let pages = pages_to(alloc, operands, out)?;
    check_outputs(alloc, pages.as_slice())?;
    Ok(pages)
}

fn several(alloc: Global, first: &Operand, second: &Operand) -> Result<PlanFault, AllocError>
    ensures { IfOk result (IsRefusal (Some
        (spec.several (spec.path_of (operand_of first.now)) (spec.path_of (operand_of second.now))))) }
{
    Ok(PlanFault::Several {
        first: String::from_str(alloc, first.path())?,
        second: String::from_str(alloc, second.path())?,
    })
}

/// The input that goes to standard output.
fn only_input(alloc: Global, operands: &[Operand]) -> Result<String, PlanFault>
    ensures ok { IfOk result (λ input.
        spec.only_input (map operand_of operands.now) ≡ Ok (spec.standard_output (string_bytes input))) }
    ensures err { IfErr result (IsRefusal (spec.fault_in (spec.only_input (map operand_of operands.now)))) }
{
    match operands {
        [] => Ok(String::from_str(alloc, "-")?),
        [Operand::Folder { path, .. }] => Err(PlanFault::Folder {
            folder: path.clone()?,
        }),
        [operand] => Ok(String::from_str(alloc, operand.path())?),
        [first, second, ..] => Err(several(alloc, first, second)?),
    }
}

/// The plan for operands, as a listing found them: where each page is read and where it is written. It is made by the
/// paths alone, and nothing is read.
pub fn plan_of(
    alloc: Global,
    operands: &[Operand],
    out: Option<Destination<'_>>,
) -> Result<FilePlan, PlanFault>
    ensures ok { IfOk result (λ plan.
        spec.plan (map operand_of operands.now) (option_map destination_of out.entry) ≡ Ok (plan_in plan)) }
    ensures apart { IfOk result (λ plan. AreApart (pages_written (plan_in plan))) }
    ensures inputs { IfOk result (λ plan. KeepInputs (pages_written (plan_in plan))) }
    ensures named { IfOk result (λ plan.
        AreNamed (option_map destination_of out.entry) (pages_written (plan_in plan))) }
    ensures below { IfOk result (λ plan. AreBelow
        (option_map destination_of out.entry) (map operand_of operands.now) (pages_written (plan_in plan))) }
    ensures err { IfErr result (IsRefusal
        (spec.fault_in (spec.plan (map operand_of operands.now) (option_map destination_of out.entry)))) }
{
    match out {
        None => Ok(FilePlan::StandardOutput {
            input: only_input(alloc, operands)?,
        }),
        Some(out) => Ok(FilePlan::Files {
            pages: files(alloc, operands, out)?,
        }),
    }
}
