//! The tags that are skipped.

ghost use Rattle.std.specs.Prelude.{◌≡◌, ◌++◌, [], IfOk, OnOk, OnErr, map, string_bytes, take, length};
ghost use Rattle.htmd.specs.Converters.{names_in};

use std::alloc::{AllocError, Global};

/// The names of elements that give nothing.
#[derive(Drop)]
pub(crate) struct SkippedTags {
    names: Vec<String>,
    alloc: Global,
}

/// These names, each in memory of its own.
fn owned(alloc: Global, names: &[&str]) -> Result<Vec<String>, AllocError>
    ensures { IfOk result (λ owned. map string_bytes owned.items ≡ map (λ name. name.now) names.now) }
{
    let mut owned = Vec::with_capacity(alloc, names.len())?;
    for name in names {
        owned.push(String::from_str(alloc, *name)?)?;
    }
    Ok(owned)
}

impl SkippedTags {
    /// None yet.
    pub(crate) fn new(alloc: Global) -> SkippedTags
        ensures { names_in result ≡ [] }
    {
        SkippedTags {
            names: Vec::new(alloc),
            alloc,
        }
    }

    pub(crate) fn len(&self) -> usize
        ensures { result ≡ length (names_in self.now) }
    {
        self.names.len()
    }

    /// Adds these. `Err` means out of memory; nothing is changed then.
    pub(crate) fn add(&mut self, names: &[&str]) -> Result<(), AllocError>
        ensures ok { OnOk result (names_in self.new ≡ names_in self.old ++ map (λ name. name.now) names.now) }
        ensures err { OnErr result (names_in self.new ≡ names_in self.old) }
    {
        let mut names = owned(self.alloc, names)?;
        self.names.append(&mut names)
    }

    /// Keeps this many.
    pub(crate) fn truncate(&mut self, count: usize)
        ensures { names_in self.new ≡ take count (names_in self.old) }
    {
        self.names.truncate(count);
    }

    /// The names, in order. `Err` means out of memory.
    pub(crate) fn names(&self, alloc: Global) -> Result<Vec<&str>, AllocError>
        ensures { IfOk result (λ names. map (λ name. name.now) names.items ≡ names_in self.now) }
    {
        let mut names = Vec::with_capacity(alloc, self.names.len())?;
        for name in &self.names {
            names.push(name.as_str())?;
        }
        Ok(names)
    }
}
