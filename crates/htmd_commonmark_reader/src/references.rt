//! The definitions that references lead to (CommonMark 0.31.2, 4.7), found by their labels.
ghost use Rattle.std.specs.Prelude.{◌≡◌, ℕ, List, IfOk, map, option_map};
ghost use Rattle.std.specs.Str.{chars};
ghost use Rattle.htmd_commonmark_reading.specs.Brackets as spec;
ghost use Rattle.htmd_commonmark_reader.specs.Definitions.{held_of};
ghost use Rattle.htmd_commonmark_reader.specs.Keys.{definition_of, held_with, with_key};

use crate::definitions::Definition;
use crate::targets::{Found, Target};
use std::alloc::{AllocError, Global};
use std::collections::BTreeMap;

/// All definitions of a document, in order.
#[derive(Drop)]
pub(crate) struct References {
    definitions: Vec<Definition>,
    /// Where among the definitions the first one with a key is.
    places: BTreeMap<Vec<u8>, usize>,
    ghost kept: { (key : List ℕ)
        → held_with definitions.items places key ≡ with_key (map held_of definitions.items) key },
}

impl References {
    ghost use Rattle.htmd_commonmark_reader.specs.References.{found_of, references_of};

    /// Keeps definitions. Of those with one label the first counts.
    pub(crate) fn new(alloc: Global, definitions: Vec<Definition>) -> Result<References, AllocError>
        ensures { IfOk result (λ references. references_of references ≡ map definition_of definitions.items) }
    {
        let mut places = BTreeMap::new(alloc);
        let mut left = definitions.len();
        while left > 0 {
            left -= 1;
            let key = Vec::from_slice(alloc, definitions[left].key.as_bytes())?;
            places.insert(key, left)?;
        }
        Ok(References {
            definitions,
            places,
        })
    }

    /// The first definition with a key.
    fn get(&self, key: &[u8]) -> Option<&Definition>
        ensures { option_map (λ d. held_of d.now) result
            ≡ with_key (map held_of self.now.definitions.items) key.now }
    {
        let place = self.places.get(key)?;
        let definition = self.definitions.get(*place)?;
        Some(definition)
    }

    /// The target by the first definition with a key.
    pub(crate) fn target_of<'a>(&'a self, key: &str, rest: &'a str) -> Option<Found<'a>>
        ensures { option_map found_of result ≡ spec.target_of (references_of self.now) (chars key.now) rest.now }
    {
        match self.get(key.as_bytes()) {
            Some(definition) => Some(Found {
                target: Target::Defined(definition),
                rest,
            }),
            None => None,
        }
    }
}
