ghost use Rattle.std.specs.Prelude.{◌≡◌, ◌↔◌, IsTrue};
ghost use Rattle.xn_bytes.specs.Trees.{tree_rule, is_tree_number, IsTreeBlock};

use xn_inode::{Extents, ForkFault};

/// Where the file blocks of a directory's tree begin, and where they end.
const FIRST_OF_DIRECTORY: u64 = 8_388_608;

const END_OF_DIRECTORY: u64 = 16_777_216;

/// A fork of an inode that has a tree: the inode, whether it is its attribute fork, the fork's extents, the file block of
/// the tree's root, and how many extents the fork has room for.
#[derive(Drop)]
pub struct Fork {
    pub owner: u64,
    pub attribute: bool,
    pub extents: Extents,
    pub root: u64,
    pub room: u64,
}

impl Fork {
    /// The rule of the checker that a broken tree of this fork breaks: 18 of a directory, 25 of an attribute fork.
    pub(crate) fn rule(&self) -> u8
        ensures { result ≡ tree_rule self.now.attribute }
    {
        if self.attribute { 25 } else { 18 }
    }

    /// Whether a block of the tree can have this file block.
    pub(crate) fn is_tree_number(&self, file_block: u64) -> bool
        ensures { result ≡ is_tree_number self.now.attribute file_block }
    {
        self.attribute || (FIRST_OF_DIRECTORY <= file_block && file_block < END_OF_DIRECTORY)
    }

    /// Whether a file block is mapped, and one that a block of the tree can have.
    pub(crate) fn is_tree_block(&self, file_block: u64) -> bool
        ensures { IsTrue result ↔ IsTreeBlock self.now.attribute self.now.extents file_block }
    {
        self.is_tree_number(file_block) && self.extents.block_at(file_block).is_some()
    }

    /// The tree is broken, at this block.
    pub(crate) fn broken(&self, block: u64) -> ForkFault
        ensures { result ≡ ForkFault.Broken (tree_rule self.now.attribute) block }
    {
        ForkFault::Broken {
            rule: self.rule(),
            block,
        }
    }
}

/// How a fork without room grows: blocks that have to be free, extents that it has and that it has room for, and the levels
/// of its tree, 0 where it has none.
#[derive(Clone, Copy, Debug, PartialEq, Eq)]
pub struct Grow {
    pub blocks: u64,
    pub extents: u64,
    pub extent_room: u64,
    pub levels: u64,
}
