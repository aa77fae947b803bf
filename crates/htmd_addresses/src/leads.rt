//! Addresses that lead to pages of a run, as addresses of the outputs of these pages.
ghost use Rattle.std.specs.Prelude.{◌≡◌, ◌++◌, [], map, IfOk, OnOk, string_bytes};
ghost use Rattle.std.specs.Option.{option_copied, unwrap_or};
ghost use Rattle.std.specs.Str.{IsCharBoundary};
ghost use Rattle.htmd_addresses.specs.Leads as spec;
ghost use Rattle.htmd_addresses.specs.PageViews.{names_of};
ghost use Rattle.htmd_addresses.specs.Paths as paths;
ghost use Rattle.htmd_addresses.specs.RunViews.{folder_in, folders_in, own_of, pages_in};
ghost use Rattle.percent_encoding.specs.Percent.{percent_encode};

use crate::attributes::{Resolve, attributes_of};
use crate::pages::Pages;
use crate::paths::{
    folder_of, go_above, name_of, page_at, page_folder, page_folder_below, same_names,
};
use crate::resolving::resolved_by;
use htmd_nodes::{Attribute, Tree};
use htmd_selectors::{Rewrite, rewritten};
use percent_encoding::{AsciiSet, CONTROLS, ascii_set, percent_decode, percent_encode};
use std::alloc::{AllocError, Global};
use url::Url;

/// What is escaped in a name: the path percent-encode set, what ends a name, what begins an escape, and the colon, so
/// that no name is read as a scheme.
const SEGMENT: AsciiSet = ascii_set!(
    CONTROLS
        .add(b' ')
        .add(b'"')
        .add(b'#')
        .add(b'<')
        .add(b'>')
        .add(b'?')
        .add(b'^')
        .add(b'`')
        .add(b'{')
        .add(b'}')
        .add(b'/')
        .add(b'\\')
        .add(b'%')
        .add(b':')
);

/// Where the path of an address ends.
fn path_len(address: &str) -> usize
    ensures boundary { IsCharBoundary address.now result }
    ensures value { result ≡ spec.path_len address.now }
{
    for (len, b) in address.as_bytes().iter().enumerate() {
        if *b == b'?' || *b == b'#' {
            return len;
        }
    }
    address.len()
}

/// Whether what follows a letter goes on as a scheme, up to its colon.
fn ends_scheme(address: &[u8]) -> bool
    ensures { result ≡ spec.ends_scheme address.now }
{
    for b in address {
        if *b == b':' {
            return true;
        }
        if !(b.is_ascii_alphanumeric() || *b == b'+' || *b == b'-' || *b == b'.') {
            return false;
        }
    }
    false
}

fn has_scheme(address: &[u8]) -> bool
    ensures { result ≡ spec.has_scheme address.now }
{
    match address {
        [] => false,
        [first, rest @ ..] => first.is_ascii_alphabetic() && ends_scheme(rest),
    }
}

/// Where the path of an address begins.
#[derive(Clone, Copy)]
enum Start {
    /// In the folder in which addresses are read.
    Folder,
    /// At the root of the site.
    Root,
    /// It is empty, or of another host or scheme.
    Elsewhere,
}

fn with_slash(b: u8) -> u8
    ensures { result ≡ spec.with_slash b }
{
    if b == b'\\' { b'/' } else { b }
}

fn begins_with_slash(path: &[u8]) -> bool
    ensures { result ≡ spec.begins_with_slash path.now }
{
    match path {
        [] => false,
        [first, ..] => with_slash(*first) == b'/',
    }
}

fn start_of_path(path: &[u8]) -> Start
    ensures { result ≡ spec.start_of_path path.now }
{
    if path.is_empty() {
        return Start::Elsewhere;
    }
    if !begins_with_slash(path) {
        return Start::Folder;
    }
    if begins_with_slash(&path[1..]) {
        return Start::Elsewhere;
    }
    Start::Root
}

/// The path of an address.
fn path_part(address: &str) -> &[u8]
    ensures { result.now ≡ spec.path_part address.now }
{
    &address.as_bytes()[..path_len(address)]
}

/// Where the path of an address begins.
fn start_of(address: &str) -> Start
    ensures { result ≡ spec.start_of address.now }
{
    if has_scheme(address.as_bytes()) {
        return Start::Elsewhere;
    }
    start_of_path(path_part(address))
}

/// Puts slashes in the place of backslashes.
fn put_slashes(path: &mut [u8])
    ensures { path.new ≡ map spec.with_slash path.old }
{
    for b in path.iter_mut() {
        *b = with_slash(*b);
    }
}

/// The path of a file, in an address.
fn file_path(alloc: Global, address: &str) -> Result<Vec<u8>, AllocError>
    ensures { IfOk result (λ file. file.items ≡ spec.file_path address.now) }
{
    let mut file = Vec::new(alloc);
    percent_decode(path_part(address)).append_to(&mut file)?;
    put_slashes(file.as_mut_slice());
    Ok(file)
}

/// Appends a name, escaped.
fn push_name(address: &mut String, name: &[u8]) -> Result<(), AllocError>
    ensures { OnOk result (string_bytes address.new ≡ string_bytes address.old ++ percent_encode SEGMENT name.now) }
{
    percent_encode(name, SEGMENT).append_to(address)
}

/// Appends names, each with a slash after it.
fn push_names(address: &mut String, names: &[&[u8]]) -> Result<(), AllocError>
    ensures { OnOk result (string_bytes address.new
        ≡ string_bytes address.old ++ spec.escaped (names_of names.now)) }
{
    for name in names {
        push_name(address, name)?;
        address.push('/')?;
    }
    Ok(())
}

/// Appends a way up for each of these names.
fn push_parents(address: &mut String, names: &[&[u8]]) -> Result<(), AllocError>
    ensures { OnOk result (string_bytes address.new
        ≡ string_bytes address.old ++ spec.escaped (map (λ name. paths.parent) (names_of names.now))) }
{
    for _name in names {
        push_name(address, b"..")?;
        address.push('/')?;
    }
    Ok(())
}

/// The address of a file, in the files of a folder.
pub(crate) fn relative(alloc: Global, from: &[&[u8]], to: &str) -> Result<String, AllocError>
    ensures { IfOk result (λ address. string_bytes address ≡ spec.relative (names_of from.now) to.now) }
{
    let to = to.as_bytes();
    let folder = folder_of(alloc, to)?;
    let same = same_names(from, folder.as_slice());
    let mut address = String::new(alloc);
    push_parents(&mut address, &from[same..])?;
    push_names(&mut address, &folder.as_slice()[same..])?;
    push_name(&mut address, name_of(to))?;
    Ok(address)
}

/// Where the path of a base begins; an empty one is that of its page's folder.
fn base_start(base: &str) -> Start
    ensures { result ≡ spec.base_start base.now }
{
    if path_len(base) == 0 {
        return Start::Folder;
    }
    start_of(base)
}

/// A page of a run: the pages of that run, and the paths of its own input and output.
#[derive(Clone, Copy)]
pub struct RunPage<'a> {
    pub pages: &'a Pages,
    pub input: &'a str,
    pub output: &'a str,
    /// The path of the input in the folder that it was found below, which is taken for the root of the site.
    pub path_in_folder: Option<&'a str>,
}

/// The folders of a page, as far as they are known.
#[derive(Drop)]
struct Folders<'a> {
    /// The folder in which addresses are read.
    input: Option<Vec<&'a [u8]>>,
    /// The root of the site.
    root: Option<Vec<&'a [u8]>>,
}

/// The root of the site of a page, unless a URL says where the site is.
fn root_of<'a>(
    alloc: Global,
    page: RunPage<'a>,
    base: Option<&Url>,
) -> Result<Option<Vec<&'a [u8]>>, AllocError>
    ensures { IfOk result (λ root. folder_in root ≡ spec.root_of (own_of page.entry) (option_copied base.entry)) }
{
    if base.is_some() {
        return Ok(None);
    }
    let Some(path) = page.path_in_folder else {
        return Ok(None);
    };
    let below = folder_of(alloc, path.as_bytes())?;
    let mut folder = folder_of(alloc, page.input.as_bytes())?;
    go_above(below.as_slice(), &mut folder);
    Ok(Some(folder))
}

impl<'a> Folders<'a> {
    /// The folders of a page that names no base.
    fn first(
        alloc: Global,
        page: RunPage<'a>,
        base: Option<&Url>,
    ) -> Result<Folders<'a>, AllocError>
        ensures { IfOk result (λ folders. folders_in folders
            ≡ spec.first_folders (own_of page.entry) (option_copied base.entry)) }
    {
        Ok(Folders {
            input: Some(folder_of(alloc, page.input.as_bytes())?),
            root: root_of(alloc, page, base)?,
        })
    }

    /// The folder of the page that a path leads to which begins there.
    fn folder_from(
        &self,
        alloc: Global,
        start: Start,
        path: &'a [u8],
    ) -> Result<Option<Vec<&'a [u8]>>, AllocError>
        ensures { IfOk result (λ folder. folder_in folder
            ≡ spec.folder_from start (folders_in self.now) path.now) }
    {
        match (start, &self.input, &self.root) {
            (Start::Folder, Some(folder), _) => {
                Ok(Some(page_folder(alloc, folder.as_slice(), path)?))
            }
            (Start::Root, _, Some(root)) => {
                Ok(Some(page_folder_below(alloc, root.as_slice(), path)?))
            }
            _ => Ok(None),
        }
    }

    /// The folders by the base of the page, whose path begins there.
    fn with_base(
        self,
        alloc: Global,
        start: Start,
        path: &'a [u8],
    ) -> Result<Folders<'a>, AllocError>
        ensures { IfOk result (λ folders. folders_in folders ≡ spec.folders_with (folders_in self.entry).root
            (spec.folder_from start (folders_in self.entry) path.now)) }
    {
        match self.folder_from(alloc, start, path)? {
            Some(input) => Ok(Folders {
                input: Some(input),
                root: self.root,
            }),
            None => Ok(Folders {
                input: None,
                root: None,
            }),
        }
    }
}

/// The addresses of a page are to lead to the outputs of other pages.
#[derive(Drop)]
struct Leads<'a, 'b> {
    pages: &'a Pages,
    base: Option<&'b Url>,
    folders: Folders<'b>,
    output_folder: Vec<&'a [u8]>,
}

impl<'a, 'b> Leads<'a, 'b> {
    /// By the path of the base of a page, which begins there.
    fn new(
        alloc: Global,
        page: RunPage<'a>,
        base: Option<&'b Url>,
        start: Start,
        path: &'b [u8],
    ) -> Result<Leads<'a, 'b>, AllocError>
    where
        'a: 'b,
        ensures pages { IfOk result (λ leads. leads.pages ≡ page.entry.pages) }
        ensures base { IfOk result (λ leads. leads.base ≡ base.entry) }
        ensures output { IfOk result (λ leads. names_of leads.output_folder.items
            ≡ paths.folder_of (own_of page.entry).output) }
        ensures folders { IfOk result (λ leads. folders_in leads.folders ≡ spec.folders_with
            (spec.first_folders (own_of page.entry) (option_copied base.entry)).root
            (spec.folder_from start (spec.first_folders (own_of page.entry) (option_copied base.entry)) path.now)) }
    {
        let first = Folders::first(alloc, page, base)?;
        Ok(Leads {
            pages: page.pages,
            base,
            folders: first.with_base(alloc, start, path)?,
            output_folder: folder_of(alloc, page.output.as_bytes())?,
        })
    }

    /// The output of the page that an address leads to.
    fn output_for(&self, alloc: Global, address: &str) -> Result<Option<&'a str>, AllocError>
        ensures { IfOk result (λ output. option_copied output
            ≡ spec.output_for (pages_in self.now.pages.now) (folders_in self.now.folders) address.now) }
    {
        let path = file_path(alloc, address)?;
        let folder = self
            .folders
            .folder_from(alloc, start_of(address), path.as_slice())?;
        let Some(folder) = folder else {
            return Ok(None);
        };
        let page = page_at(alloc, path.as_slice(), folder.as_slice())?;
        self.pages.output_or_index(page)
    }

    /// The address of the output that an address leads to; one that leads to no page of the run is resolved against
    /// the base, if there is one.
    fn lead(&self, alloc: Global, address: &str) -> Result<String, AllocError>
        ensures { IfOk result (λ s. string_bytes s ≡ spec.lead (pages_in self.now.pages.now)
            (folders_in self.now.folders) (names_of self.now.output_folder.items)
            (option_copied self.now.base) address.now) }
    {
        let inner = address.trim_ascii();
        let Some(output) = self.output_for(alloc, inner)? else {
            return resolved_by(alloc, self.base, address);
        };
        let (_, ending) = inner.split_at(path_len(inner));
        let mut lead = relative(alloc, self.output_folder.as_slice(), output)?;
        lead.push_str(ending)?;
        Ok(lead)
    }
}

impl Resolve for Leads<'_, '_> {
    ghost use Rattle.htmd_addresses.specs.Leads as spec;
    ghost use Rattle.std.specs.Option.{option_copied};

    ghost to = { λ leads.
        spec.lead (pages_in leads.pages.now) (folders_in leads.folders) (names_of leads.output_folder.items)
        (option_copied leads.base) };

    fn resolved(&self, alloc: Global, address: &str) -> Result<String, AllocError> {
        self.lead(alloc, address)
    }
}

impl Rewrite for Leads<'_, '_> {
    ghost use Rattle.htmd_addresses.specs.AddressAttributes.{attributes_with};
    ghost use Rattle.htmd_addresses.specs.Leads as spec;
    ghost use Rattle.std.specs.Option.{option_copied};

    ghost rule = { λ leads. attributes_with
        (spec.lead (pages_in leads.pages.now) (folders_in leads.folders) (names_of leads.output_folder.items)
        (option_copied leads.base)) };

    fn attributes(
        &self,
        alloc: Global,
        name: &str,
        attrs: &[Attribute],
    ) -> Result<Vec<Attribute>, AllocError> {
        attributes_of(alloc, self, name, attrs)
    }
}

/// The address of the base that a page names; a page that names none is as one with an empty base.
fn base_address(named: Option<&str>) -> &str
    ensures { result.now ≡ spec.trimmed (unwrap_or (option_copied named.entry) []) }
{
    named.unwrap_or("").trim_ascii()
}

/// The page of a run in which the addresses that lead to a page of the run lead to its output: those of links, and of
/// what is shown in it. Where a base is given, all others are resolved against it, as `make_absolute` does; else paths
/// from the root lead from the folder that the page was found below. `named` is the address of the base that the whole
/// page names: relative addresses are read in its folder, and none leads to a page of the run if that isn't known.
/// `Err` means out of memory, or a URL of 4 GB.
pub fn lead_to_pages(
    alloc: Global,
    tree: &Tree,
    page: RunPage<'_>,
    base: Option<&Url>,
    named: Option<&str>,
) -> Result<Tree, AllocError>
    ensures ok { IfOk result (λ led. led
        ≡ spec.led_page (pages_in page.entry.pages.now) (own_of page.entry)
        (option_copied base.entry) (option_copied named.entry) tree.now) }
{
    let address = base_address(named);
    let path = file_path(alloc, address)?;
    let leads = Leads::new(alloc, page, base, base_start(address), path.as_slice())?;
    rewritten(alloc, tree, &leads)
}
