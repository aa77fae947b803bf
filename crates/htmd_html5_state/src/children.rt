//! The children of a node while a document is made.
ghost use Rattle.std.specs.Prelude.{◌≡◌, ◌<◌, ◌≤◌, [], ◌∷◌, ◌++◌, insert, remove, length, IfOk, OnOk};
ghost use Rattle.htmd_html5_state.specs.Views.{numbers_of};

use std::alloc::{AllocError, Global};
use std::slice;

/// The numbers of the children of a node, in order. Most nodes have few, which need no allocation of their own.
#[derive(Drop)]
pub enum Children {
    None,
    One(u32),
    Two([u32; 2]),
    Three([u32; 3]),
    More(Box<Vec<u32>>),
}

/// The room that is made when there are more than three children: 48 bytes with what malloc adds.
const ROOM: usize = 10;

impl Children {
    /// The numbers, in order.
    pub fn as_slice(&self) -> &[u32]
        ensures { result.now ≡ numbers_of self.now }
    {
        match self {
            Children::None => &[],
            Children::One(number) => slice::from_ref(number),
            Children::Two(numbers) => numbers,
            Children::Three(numbers) => numbers,
            Children::More(numbers) => numbers.as_slice(),
        }
    }

    /// The numbers, with room for more.
    fn spread(&self, alloc: Global) -> Result<Vec<u32>, AllocError>
        ensures { IfOk result (λ numbers. numbers.items ≡ numbers_of self.now) }
    {
        let mut numbers = Vec::with_capacity(alloc, ROOM)?;
        numbers.extend_from_slice(self.as_slice())?;
        Ok(numbers)
    }

    /// More than three children: these, with a new one before the one at this place.
    fn with(&self, alloc: Global, index: usize, child: u32) -> Result<Children, AllocError>
        requires { index ≤ length (numbers_of self.now) }
        ensures { IfOk result (λ more. numbers_of more ≡ insert (numbers_of self.now) index child) }
    {
        let mut numbers = self.spread(alloc)?;
        numbers.insert(index, child)?;
        Ok(Children::More(Box::new(alloc, numbers)?))
    }

    /// These, with a new last child.
    #[tactic(auto, using(crate::proofs::DocumentLemmas::insert_last))]
    #[inline(always)]
    fn with_last(&self, alloc: Global, child: u32) -> Result<Children, AllocError>
        ensures { IfOk result (λ more. numbers_of more ≡ numbers_of self.now ++ child ∷ []) }
    {
        match self {
            Children::None => Ok(Children::One(child)),
            Children::One(first) => Ok(Children::Two([*first, child])),
            Children::Two(numbers) => Ok(Children::Three([numbers[0], numbers[1], child])),
            _ => self.with(alloc, self.as_slice().len(), child),
        }
    }

    /// A new last child.
    pub(crate) fn push(&mut self, alloc: Global, child: u32) -> Result<(), AllocError>
        ensures { OnOk result (numbers_of self.new ≡ numbers_of self.old ++ child ∷ []) }
    {
        if let Children::More(numbers) = self {
            numbers.push(child)?;
            return Ok(());
        }
        *self = self.with_last(alloc, child)?;
        Ok(())
    }

    /// New last children.
    pub(crate) fn extend(&mut self, alloc: Global, children: &[u32]) -> Result<(), AllocError>
        ensures { OnOk result (numbers_of self.new ≡ numbers_of self.old ++ children.now) }
    {
        for child in children {
            self.push(alloc, *child)?;
        }
        Ok(())
    }

    /// A new child before the one at this place.
    pub(crate) fn insert(
        &mut self,
        alloc: Global,
        index: usize,
        child: u32,
    ) -> Result<(), AllocError>
        requires { index ≤ length (numbers_of self.old) }
        ensures { OnOk result (numbers_of self.new ≡ insert (numbers_of self.old) index child) }
    {
        if let Children::More(numbers) = self {
            numbers.insert(index, child)?;
            return Ok(());
        }
        *self = self.with(alloc, index, child)?;
        Ok(())
    }

    /// Takes out the child at this place.
    pub(crate) fn remove(&mut self, index: usize)
        requires { index < length (numbers_of self.old) }
        ensures { numbers_of self.new ≡ remove (numbers_of self.old) index }
    {
        let left = match self {
            Children::None => unreachable!(),
            Children::One(_) => Children::None,
            Children::Two(numbers) => match index {
                0 => Children::One(numbers[1]),
                _ => Children::One(numbers[0]),
            },
            Children::Three(numbers) => match index {
                0 => Children::Two([numbers[1], numbers[2]]),
                1 => Children::Two([numbers[0], numbers[2]]),
                _ => Children::Two([numbers[0], numbers[1]]),
            },
            Children::More(numbers) => {
                numbers.remove(index);
                return;
            }
        };
        *self = left;
    }
}
