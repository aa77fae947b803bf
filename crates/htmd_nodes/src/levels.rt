//! Where a node stands: its depth, its parent, and its children.
ghost use Rattle.std.specs.Prelude.{◌≡◌, ◌<◌, [], ◌∷◌, ◌++◌, false, take, length, IfOk, OnOk, OnErr, IsTrue};
ghost use Rattle.htmd_nodes.specs.Levels.{level_of, with_last, childless};

use crate::tree::NodeId;
use std::alloc::{AllocError, Global};
use std::marker::Model;

/// How deep a node is, the number of its parent, and its children, in order.
#[derive(Drop)]
pub(crate) struct Level {
    kept: Kept,
}

/// Most nodes have one child or none, and then no allocation of their own; two to seven children stand in an array,
/// whose other places mean nothing. The depth, the number of children in an array, and the parent of a node with
/// children if its number is below 2^32, stand where there is room for them anyway: so a level takes 16 bytes.
#[derive(Drop)]
enum Kept {
    None {
        depth: u16,
        parent: usize,
    },
    One {
        depth: u16,
        parent: u32,
        ids: [NodeId; 1],
    },
    Three {
        len: u8,
        depth: u16,
        parent: u32,
        ids: Box<[NodeId; 3]>,
    },
    Seven {
        len: u8,
        depth: u16,
        parent: u32,
        ids: Box<[NodeId; 7]>,
    },
    More {
        depth: u16,
        more: Box<More>,
    },
}

/// More than seven children, or those of a node whose parent has a greater number.
#[derive(Drop)]
struct More {
    parent: usize,
    ids: Vec<NodeId>,
}

impl Model for Level {
    ghost use Rattle.htmd_nodes.specs.Levels as spec;

    ghost Value = { spec.LevelValue };

    ghost view = { λ l. spec.level_of l.kept };
}

/// The room that is made for the eighth child: 128 bytes with what malloc adds.
const ROOM: usize = 15;

/// So many from the front of an array.
#[inline(always)]
fn front(ids: &[NodeId], len: u8) -> &[NodeId]
    ensures { result.now ≡ take len ids.now }
{
    &ids[..(len as usize).min(ids.len())]
}

impl Kept {
    /// The children, in order.
    #[inline(always)]
    fn as_slice(&self) -> &[NodeId]
        ensures { result.now ≡ (level_of self.now).children }
    {
        match self {
            Kept::None { .. } => &[],
            Kept::One { ids, .. } => ids,
            Kept::Three { len, ids, .. } => front(&**ids, *len),
            Kept::Seven { len, ids, .. } => front(&**ids, *len),
            Kept::More { more, .. } => more.ids.as_slice(),
        }
    }

    #[inline(always)]
    fn depth(&self) -> u16
        ensures { result ≡ (level_of self.now).depth }
    {
        match self {
            Kept::None { depth, .. } => *depth,
            Kept::One { depth, .. } => *depth,
            Kept::Three { depth, .. } => *depth,
            Kept::Seven { depth, .. } => *depth,
            Kept::More { depth, .. } => *depth,
        }
    }

    /// The number of the parent.
    #[inline(always)]
    fn parent(&self) -> usize
        ensures { result ≡ (level_of self.now).parent }
    {
        match self {
            Kept::None { parent, .. } => *parent,
            Kept::One { parent, .. } => *parent as usize,
            Kept::Three { parent, .. } => *parent as usize,
            Kept::Seven { parent, .. } => *parent as usize,
            Kept::More { more, .. } => more.parent,
        }
    }

    /// Puts a new last child where there is room for it.
    #[inline(always)]
    fn put_child(&mut self, id: NodeId) -> bool
        ensures put { IsTrue result → level_of self.new ≡ with_last id (level_of self.old) }
        ensures full { result ≡ false → level_of self.new ≡ level_of self.old }
    {
        match self {
            Kept::None { depth, parent } => {
                let (depth, parent) = (*depth, *parent);
                match u32::try_from(parent) {
                    Ok(parent) => {
                        *self = Kept::One {
                            depth,
                            parent,
                            ids: [id],
                        };
                        true
                    }
                    Err(_) => false,
                }
            }
            Kept::Three { len, ids, .. } if *len < 3 => {
                ids[*len as usize] = id;
                *len += 1;
                true
            }
            Kept::Seven { len, ids, .. } if *len < 7 => {
                ids[*len as usize] = id;
                *len += 1;
                true
            }
            _ => false,
        }
    }

    /// These children and a new last one, in a list of their own.
    fn spread(&self, alloc: Global, id: NodeId) -> Result<Kept, AllocError>
        ensures { IfOk result (λ more. level_of more ≡ with_last id (level_of self.now)) }
    {
        let mut ids = Vec::with_capacity(alloc, ROOM)?;
        ids.extend_from_slice(self.as_slice())?;
        ids.push(id)?;
        Ok(Kept::More {
            depth: self.depth(),
            more: Box::new(
                alloc,
                More {
                    parent: self.parent(),
                    ids,
                },
            )?,
        })
    }

    /// These children and a new last one.
    fn with_last(&self, alloc: Global, id: NodeId) -> Result<Kept, AllocError>
        ensures { IfOk result (λ more. level_of more ≡ with_last id (level_of self.now)) }
    {
        match self {
            Kept::One { depth, parent, ids } => Ok(Kept::Three {
                len: 2,
                depth: *depth,
                parent: *parent,
                ids: Box::new(alloc, [ids[0], id, id])?,
            }),
            Kept::Three {
                len,
                depth,
                parent,
                ids,
            } if *len >= 3 => Ok(Kept::Seven {
                len: 4,
                depth: *depth,
                parent: *parent,
                ids: Box::new(alloc, [ids[0], ids[1], ids[2], id, id, id, id])?,
            }),
            _ => self.spread(alloc, id),
        }
    }
}

impl Level {
    /// This depth and this parent, and no children yet.
    pub(crate) fn new(depth: u16, parent: usize) -> Level
        ensures { result ≡ childless depth parent }
    {
        Level {
            kept: Kept::None { depth, parent },
        }
    }

    pub(crate) fn depth(&self) -> u16
        ensures { result ≡ self.now.depth }
    {
        self.kept.depth()
    }

    /// The number of the parent.
    pub(crate) fn parent(&self) -> usize
        ensures { result ≡ self.now.parent }
    {
        self.kept.parent()
    }

    /// The children, in order.
    pub(crate) fn children(&self) -> &[NodeId]
        ensures { result.now ≡ self.now.children }
    {
        self.kept.as_slice()
    }

    /// A new last child.
    pub(crate) fn push_child(&mut self, alloc: Global, id: NodeId) -> Result<(), AllocError>
        ensures ok { OnOk result (self.new ≡ with_last id self.old) }
        ensures err { OnErr result (self.new ≡ self.old) }
    {
        if let Kept::More { more, .. } = &mut self.kept {
            more.ids.push(id)?;
            return Ok(());
        }
        if self.kept.put_child(id) {
            return Ok(());
        }
        self.kept = self.kept.with_last(alloc, id)?;
        Ok(())
    }
}
