//! The pages of a run, found by the paths of their inputs.
ghost use Rattle.std.specs.Prelude.{◌≡◌, ℕ, List, IfOk};
ghost use Rattle.std.specs.Option.{option_copied};
ghost use Rattle.htmd_addresses.specs.Leads.{output_at, output_or_index};
ghost use Rattle.htmd_addresses.specs.Paths as paths;
ghost use Rattle.htmd_addresses.specs.PageViews.{output_in, pages_of};

use crate::paths::{folder_of, name_of, path_of};
use std::alloc::{AllocError, Global};
use std::collections::BTreeMap;

/// A page of a run: the paths of its input and of its output, with `/` between names.
#[derive(Drop)]
pub struct Page {
    pub input: String,
    pub output: String,
}

/// The pages of a run, found by the paths of their inputs.
#[derive(Drop)]
pub struct Pages {
    pages: Vec<Page>,
    /// Where among the pages the first one with an input is, by the path of that input in its one form.
    places: BTreeMap<Vec<u8>, usize>,
    ghost kept: { (path : List ℕ) → output_in pages.items places path ≡ output_at (pages_of pages.items) path },
}

/// A path in its one form.
fn plain_path(alloc: Global, path: &str) -> Result<Vec<u8>, AllocError>
    ensures { IfOk result (λ plain. plain.items ≡ paths.plain_path path.now) }
{
    let path = path.as_bytes();
    let folder = folder_of(alloc, path)?;
    path_of(alloc, folder.as_slice(), name_of(path))
}

impl Pages {
    ghost use Rattle.htmd_addresses.specs.RunViews.{pages_in};

    /// Keeps the pages of a run. Of pages with one input the first counts.
    pub fn new(alloc: Global, pages: Vec<Page>) -> Result<Pages, AllocError>
        ensures ok { IfOk result (λ kept. pages_in kept ≡ pages_of pages.items) }
    {
        let mut places = BTreeMap::new(alloc);
        let mut left = pages.len();
        while left > 0 {
            left -= 1;
            places.insert(plain_path(alloc, &pages[left].input)?, left)?;
        }
        Ok(Pages { pages, places })
    }

    /// The output of the page whose input has this path, in its one form.
    fn output_at(&self, path: &[u8]) -> Option<&str>
        ensures { option_copied result ≡ output_at (pages_in self.now) path.now }
    {
        let place = self.places.get(path)?;
        let page = self.pages.get(*place)?;
        Some(page.output.as_str())
    }

    /// The output of the page whose input has this path, or else of the index of the folder with it.
    pub(crate) fn output_or_index(&self, mut path: Vec<u8>) -> Result<Option<&str>, AllocError>
        ensures { IfOk result (λ output. option_copied output
            ≡ output_or_index (pages_in self.now) path.items) }
    {
        let output = self.output_at(path.as_slice());
        if output.is_some() {
            return Ok(output);
        }
        path.extend_from_slice(b"/index.html")?;
        Ok(self.output_at(path.as_slice()))
    }
}
