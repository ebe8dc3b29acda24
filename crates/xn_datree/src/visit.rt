//! What a walk has still to read, and what it compares a block with.

ghost use Rattle.std.specs.Prelude.{◌≡◌, ◌≢◌, ◌↔◌, ◌≤◌, ℕ, List, length, IsTrue, All, Option, Some, None, IfSome};
ghost use Rattle.xn_bytes.specs.Superblock.{IsBlock};
ghost use Rattle.xn_bytes.specs.HashedTree.{Child as HeldChild};
ghost use Rattle.xn_bytes.specs.Trees.{IsAsked, IsBeside, IsOwnBlock, IsTreeBlock, level_in, left_in, visit_to as visit_below};

use crate::fork::Fork;
use crate::header::TreeHeader;
use crate::held::level_of;
use crate::node::Child;
use std::marker::Model;
use xn_bytes::u32_at;
use xn_inode::Super;

const LEFT: usize = 4;

/// The greatest level of a root: five blocks on a path, the leaf included.
const MOST_LEVEL: u16 = 4;

/// What the entry of its parent asks for of a block: its level, and its greatest hash.
#[derive(Clone, Copy, Debug, PartialEq, Eq)]
pub(crate) struct Asked {
    pub(crate) level: u16,
    pub(crate) hash: u32,
}

impl Model for Asked {
    ghost use Rattle.std.specs.Prelude.{◌<◌, ◌^◌};
    ghost use Rattle.xn_bytes.specs.Trees.{Asked as AskedFor};

    ghost Value = { AskedFor };

    ghost view = { λ a. record { level = a.level; hash = a.hash } };

    ghost inverse = { λ a. record { level = a.level; hash = a.hash } };

    ghost invariant = { λ a. (a.level < 2 ^ 16) × (a.hash < 2 ^ 32) };
}

/// A block that is to be read: its file block, and what is asked for of it; nothing of the root.
#[derive(Clone, Copy, Debug, PartialEq, Eq)]
pub(crate) struct Visit {
    pub(crate) file_block: u64,
    pub(crate) asked: Option<Asked>,
}

impl Model for Visit {
    ghost use Rattle.xn_bytes.specs.Trees.{Visit as Visiting};

    ghost Value = { Visiting };

    ghost view = { λ v. record { file_block = v.file_block; asked = v.asked } };

    ghost inverse = { λ v. record { file_block = v.file_block; asked = v.asked } };
}

/// A block that was met: what the next one of its level is compared with.
#[derive(Clone, Copy, Debug, PartialEq, Eq)]
pub(crate) struct Met {
    pub(crate) file_block: u64,
    pub(crate) level: u16,
    pub(crate) right: u32,
    pub(crate) last: u32,
}

impl Model for Met {
    ghost use Rattle.std.specs.Prelude.{◌<◌, ◌^◌};
    ghost use Rattle.xn_bytes.specs.Trees.{Met as Meeting};

    ghost Value = { Meeting };

    ghost view = { λ m. record { file_block = m.file_block; level = m.level; right = m.right; last = m.last } };

    ghost inverse = { λ m. record { file_block = m.file_block; level = m.level; right = m.right; last = m.last } };

    ghost invariant = { λ m. (m.file_block < 2 ^ 64) × (m.level < 2 ^ 16) × (m.right < 2 ^ 32) × (m.last < 2 ^ 32) };
}

/// Nothing is asked for of the root.
pub(crate) fn root_visit(fork: &Fork) -> Visit
    ensures { result ≡ record { file_block = fork.now.root; asked = None } }
{
    let file_block = fork.root;
    Visit {
        file_block,
        asked: None,
    }
}

/// A child is read as one level below its parent, with the hash that the parent's entry has.
pub(crate) fn visit_to(level: u16, child: Child) -> Visit
    ensures { result ≡ visit_below level child }
{
    Visit {
        file_block: u64::from(child.file_block),
        asked: Some(Asked {
            level: level.saturating_sub(1),
            hash: child.hash,
        }),
    }
}

/// Whether a block's place, uuid and owner are its own.
pub(crate) fn is_own(geometry: &Super, owner: u64, block: u64, bytes: &[u8]) -> bool
    requires size { length bytes.now ≡ 4096 }
    requires place { IsBlock geometry.now block }
    ensures { IsTrue result ↔ IsOwnBlock geometry.now owner block bytes.now }
{
    let header = TreeHeader::read(bytes);
    header.place == geometry.sector_of_block(block)
        && header.uuid == *geometry.meta_uuid()
        && header.owner == owner
}

/// Whether the level and the greatest hash of a block are those that are asked for.
pub(crate) fn is_asked(bytes: &[u8], ends: Option<(u32, u32)>, asked: Option<Asked>) -> bool
    requires { length bytes.now ≡ 4096 }
    ensures { IsTrue result ↔ IsAsked bytes.now ends asked }
{
    let level = level_of(bytes);
    match (asked, ends) {
        (None, _) => level <= MOST_LEVEL,
        (Some(_), None) => false,
        (Some(asked), Some((_, last))) => level == asked.level && last == asked.hash,
    }
}

/// Whether a block and its left neighbour name each other and no hash falls between them; or, where it has none, it names
/// none.
pub(crate) fn is_beside(
    bytes: &[u8],
    file_block: u64,
    ends: Option<(u32, u32)>,
    left: Option<Met>,
) -> bool
    requires { length bytes.now ≡ 4096 }
    ensures { IsTrue result ↔ IsBeside bytes.now file_block ends left }
{
    let Some(left) = left else {
        return u32_at(bytes, LEFT) == 0;
    };
    name_each_other(bytes, file_block, left) && is_not_below(ends, left.last)
}

/// Whether a block and its left neighbour name each other; 0 is the name of none.
fn name_each_other(bytes: &[u8], file_block: u64, left: Met) -> bool
    requires { length bytes.now ≡ 4096 }
    ensures { IsTrue result ↔ ((left_in bytes.now ≡ left.file_block) × (left.right ≡ file_block) × (left.right ≢ 0)) }
{
    u64::from(u32_at(bytes, LEFT)) == left.file_block
        && u64::from(left.right) == file_block
        && left.right != 0
}

/// Whether the first hash, if there is one, is not below a hash.
fn is_not_below(ends: Option<(u32, u32)>, hash: u32) -> bool
    ensures { IsTrue result ↔ IfSome ends (λ hashes. hash ≤ hashes.0) }
{
    match ends {
        None => true,
        Some((first, _)) => hash <= first,
    }
}

/// Whether all children are mapped blocks of the tree.
pub(crate) fn are_tree_blocks(fork: &Fork, children: &[Child]) -> bool
    ensures { IsTrue result ↔ All (λ child. IsTreeBlock fork.now.attribute fork.now.extents child.file_block) children.now }
{
    children
        .iter()
        .all(|child| fork.is_tree_block(u64::from(child.file_block)))
}
