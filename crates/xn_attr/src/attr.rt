//! The calls on the attributes of an inode of a store.

ghost use Rattle.std.specs.Prelude.{◌≡◌, ◌+◌, ◌/◌, ◌^◌, ◌<◌, ◌≤◌, ◌↔◌, ℕ, List, length, Contains, IsTrue, IfOk, IfErr, IfSome};
ghost use Rattle.xn_bytes.specs.declared.attribute.Attribute.{Attribute};
ghost use Rattle.xn_bytes.specs.Attributes.{attribute_hash};
ghost use Rattle.xn_bytes.specs.AttributeRoom.{HasAttrRoom, IsAttrCost, IsAttrGrowth, tree_growth};
ghost use Rattle.xn_bytes.specs.Blocks.{block_of};
ghost use Rattle.xn_attrleaf.specs.Entries.{with_value_here};
ghost use Rattle.xn_attr.specs.Costs.{find_most, list_most};
ghost use Rattle.xn_bytes.specs.Superblock.{IsInode};
ghost use Rattle.xn_bytes.specs.Inode.{CoreHolds, HasBothForks, HasCore, HasForks, attr_fork_of, inode_of};
ghost use Rattle.xn_bytes.specs.AttributeForks.{AttrHolds, HasOwnInode};
ghost use Rattle.xn_inode.specs.Frames.{StoreStays};
ghost use Rattle.xn_attr.specs.Inodes.{IsOfForm, IsSoundInode};
ghost use Rattle.xn_attr.specs.Faults.{IsAttrFault, IsInodeFault, IsRootFault, IsSearchFault};

use crate::form::{Form, form_of};
use crate::search::is_among;
use crate::short_form;
use crate::tree_form::{EXTENT_BYTES, tree_fork};
use std::alloc::Global;
use xn_attrleaf::{AttrLeaf, ShortAttr, hash_with_value, size_with_value};
use xn_bytes::Attribute;
use xn_datree::{Grow, Tree};
use xn_inode::{Core, ForkFault, Store};

const INODE_BYTES: usize = 512;

/// The attributes of an inode of a store, whichever form they are kept in.
pub struct Attr;

impl Attr {
    /// The attributes of this inode, in the order in which they stand. It reads the inode, and each block of the tree, if there is
    /// one, once. The blocks of remote values are not read.
    pub fn list<S: Store>(
        alloc: Global,
        store: &mut S,
        ino: u64,
    ) -> Result<Vec<Attribute>, ForkFault>
        requires whole { S.IsWhole store.old }
        requires place { IsInode (S.shape store.old) ino }
        ensures holds { IfOk result (λ attributes. IfSome (S.image store.old) (λ x. AttrHolds (S.shape store.old) x ino attributes.items)) }
        ensures inode { IfOk result (λ _. IfSome (S.image store.old) (λ x. HasOwnInode (S.shape store.old) (inode_of (S.shape store.old) x ino) ino)) }
        ensures fault { IfErr result (IsAttrFault S.Store ino store.old store.new) }
        ensures stays { StoreStays S.Store store.old store.new }
        ensures reads { IfOk result (λ _. IfSome (S.image store.old) (λ x. (cost : ℕ) × IsAttrCost (S.shape store.old) ino (inode_of (S.shape store.old) x ino) (block_of (S.shape store.old) x) cost × (S.fetches store.new ≤ S.fetches store.old + cost))) }
        ensures most { IfSome (S.image store.old) (λ x. S.fetches store.new ≤ S.fetches store.old + list_most (inode_of (S.shape store.old) x ino)) }
    {
        let mut inode = [0; INODE_BYTES];
        let core = read_core(store, ino, &mut inode)?;
        Attr::list_in(alloc, store, ino, &core, &inode)
    }

    /// The same of an inode whose bytes are at hand, with the core that they spell, of which rules 10 and 11 hold. It reads each
    /// block of the tree, if there is one, once.
    pub fn list_in<S: Store>(
        alloc: Global,
        store: &mut S,
        ino: u64,
        core: &Core,
        inode: &[u8],
    ) -> Result<Vec<Attribute>, ForkFault>
        requires whole { S.IsWhole store.old }
        requires place { IsInode (S.shape store.old) ino }
        requires bytes { IfSome (S.image store.old) (λ x. inode.now ≡ inode_of (S.shape store.old) x ino) }
        requires core { CoreHolds inode.now core.now }
        requires rule_ten { HasCore inode.now ino (S.shape store.old).meta_uuid }
        requires rule_eleven { HasBothForks (S.shape store.old) inode.now ino }
        ensures holds { IfOk result (λ attributes. IfSome (S.image store.old) (λ x. AttrHolds (S.shape store.old) x ino attributes.items)) }
        ensures inode { IfOk result (λ _. IfSome (S.image store.old) (λ x. HasOwnInode (S.shape store.old) (inode_of (S.shape store.old) x ino) ino)) }
        ensures fault { IfErr result (IsAttrFault S.Store ino store.old store.new) }
        ensures stays { StoreStays S.Store store.old store.new }
        ensures reads { IfOk result (λ _. IfSome (S.image store.old) (λ x. (cost : ℕ) × IsAttrCost (S.shape store.old) ino (inode_of (S.shape store.old) x ino) (block_of (S.shape store.old) x) cost × (S.fetches store.new + 1 ≤ S.fetches store.old + cost))) }
        ensures most { IfSome (S.image store.old) (λ x. S.fetches store.new + 1 ≤ S.fetches store.old + list_most (inode_of (S.shape store.old) x ino)) }
    {
        match form_of(alloc, store.geometry(), core, inode)? {
            Form::Absent => Ok(Vec::new(alloc)),
            Form::Empty => Ok(Vec::new(alloc)),
            Form::Short => short_form::list(alloc, core, inode),
            Form::Tree => {
                let fork = tree_fork(alloc, store.geometry(), ino, core, inode)?;
                Tree::<AttrLeaf>::walk(alloc, store, &fork)
            }
        }
    }

    /// Whether this inode has the attribute with these flags, of which the lowest bit is not set, this name, and this value beside
    /// it. In a tree it is found by its hash: what lies beside the way is not looked at. It reads the inode, and in a tree the
    /// path to the leaf, and further leaves as long as they end with the hash.
    pub fn find<S: Store>(
        alloc: Global,
        store: &mut S,
        ino: u64,
        flags: u8,
        name: &[u8],
        value: &[u8],
    ) -> Result<bool, ForkFault>
        requires whole { S.IsWhole store.old }
        requires place { IsInode (S.shape store.old) ino }
        ensures found { IfOk result (λ found. IfSome (S.image store.old) (λ x. (attributes : List Attribute) → AttrHolds (S.shape store.old) x ino attributes → (IsTrue found ↔ Contains attributes (with_value_here flags name.now value.now)))) }
        ensures inode { IfOk result (λ _. IfSome (S.image store.old) (λ x. HasOwnInode (S.shape store.old) (inode_of (S.shape store.old) x ino) ino)) }
        ensures fault { IfErr result (IsSearchFault S.Store ino (attribute_hash (with_value_here flags name.now value.now)) store.old store.new) }
        ensures stays { StoreStays S.Store store.old store.new }
        ensures most { IfSome (S.image store.old) (λ x. S.fetches store.new ≤ S.fetches store.old + find_most (inode_of (S.shape store.old) x ino)) }
    {
        let wanted = ShortAttr { flags, name, value };
        let mut inode = [0; INODE_BYTES];
        let (core, form) = read_form(alloc, store, ino, &mut inode)?;
        match form {
            Form::Absent => Ok(false),
            Form::Empty => Ok(false),
            Form::Short => short_form::has(&core, &inode, &wanted),
            Form::Tree => {
                let fork = tree_fork(alloc, store.geometry(), ino, &core, &inode)?;
                let hash = hash_with_value(flags, name, value);
                let found = Tree::<AttrLeaf>::find_all(alloc, store, &fork, hash)?;
                Ok(is_among(&found, &wanted))
            }
        }
    }

    /// Whether an attribute with these flags, of which the lowest bit is not set, this name, and this value beside it, has room
    /// in the attribute fork of this inode. It reads the inode, and in a tree the path to the leaf for its hash.
    pub fn room<S: Store>(
        alloc: Global,
        store: &mut S,
        ino: u64,
        flags: u8,
        name: &[u8],
        value: &[u8],
    ) -> Result<bool, ForkFault>
        requires whole { S.IsWhole store.old }
        requires place { IsInode (S.shape store.old) ino }
        ensures room { IfOk result (λ room. IfSome (S.image store.old) (λ x. (attributes : List Attribute) → AttrHolds (S.shape store.old) x ino attributes → (IsTrue room ↔ HasAttrRoom (S.shape store.old) ino (inode_of (S.shape store.old) x ino) (block_of (S.shape store.old) x) attributes flags name.now value.now))) }
        ensures inode { IfOk result (λ _. IfSome (S.image store.old) (λ x. HasOwnInode (S.shape store.old) (inode_of (S.shape store.old) x ino) ino)) }
        ensures fault { IfErr result (IsSearchFault S.Store ino (attribute_hash (with_value_here flags name.now value.now)) store.old store.new) }
        ensures stays { StoreStays S.Store store.old store.new }
        ensures fetches { S.fetches store.new ≤ S.fetches store.old + 6 }
    {
        let mut inode = [0; INODE_BYTES];
        let (core, form) = read_form(alloc, store, ino, &mut inode)?;
        match form {
            Form::Absent => Ok(false),
            Form::Empty => Ok(short_form::has_room_alone(&core, &inode, name, value)),
            Form::Short => short_form::has_room(&core, &inode, name, value),
            Form::Tree => {
                let fork = tree_fork(alloc, store.geometry(), ino, &core, &inode)?;
                let hash = hash_with_value(flags, name, value);
                let size = size_with_value(name.len(), value.len());
                Tree::<AttrLeaf>::fits(alloc, store, &fork, hash, size as u64)
            }
        }
    }

    /// How the attribute fork of this inode grows that has no room. It reads the inode and the root of the tree.
    pub fn grow<S: Store>(alloc: Global, store: &mut S, ino: u64) -> Result<Grow, ForkFault>
        requires whole { S.IsWhole store.old }
        requires place { IsInode (S.shape store.old) ino }
        ensures growth { IfOk result (λ grow. IfSome (S.image store.old) (λ x. IsAttrGrowth (S.shape store.old) ino (inode_of (S.shape store.old) x ino) (block_of (S.shape store.old) x) grow.blocks grow.extents grow.extent_room grow.levels)) }
        ensures inode { IfOk result (λ _. IfSome (S.image store.old) (λ x. HasOwnInode (S.shape store.old) (inode_of (S.shape store.old) x ino) ino)) }
        ensures fault { IfErr result (IsRootFault S.Store ino store.old store.new) }
        ensures stays { StoreStays S.Store store.old store.new }
        ensures fetches { S.fetches store.new ≤ S.fetches store.old + 2 }
    {
        let mut inode = [0; INODE_BYTES];
        let (core, form) = read_form(alloc, store, ino, &mut inode)?;
        match form {
            Form::Tree => {
                let fork = tree_fork(alloc, store.geometry(), ino, &core, &inode)?;
                let levels = Tree::<AttrLeaf>::levels(alloc, store, &fork)?;
                Ok(Grow {
                    blocks: tree_growth(levels),
                    extents: core.attr_extents(),
                    extent_room: fork.room,
                    levels,
                })
            }
            _ => Ok(first_block(&core, &inode)),
        }
    }
}

/// Without a tree one block becomes the first leaf.
fn first_block(core: &Core, inode: &[u8]) -> Grow
    requires core { CoreHolds inode.now core.now }
    requires forks { HasForks inode.now }
    ensures { result ≡ record { blocks = 1; extents = 0; extent_room = length (attr_fork_of inode.now) / 16; levels = 0 } }
{
    Grow {
        blocks: 1,
        extents: 0,
        extent_room: core.attr_fork(inode).len() as u64 / EXTENT_BYTES,
        levels: 0,
    }
}

/// How many blocks have to be free where a tree of so many levels grows.
fn tree_growth(levels: u64) -> u64
    requires { levels < 2 ^ 32 }
    ensures { result ≡ tree_growth levels }
{
    if levels == 1 { 2 } else { levels + 2 }
}

/// Reads an inode: rules 10, 11 and 13, and the form of its attributes.
fn read_form<S: Store>(
    alloc: Global,
    store: &mut S,
    ino: u64,
    inode: &mut [u8; INODE_BYTES],
) -> Result<(Core, Form), ForkFault>
    requires whole { S.IsWhole store.old }
    requires place { IsInode (S.shape store.old) ino }
    ensures bytes { IfOk result (λ _. IfSome (S.image store.old) (λ x. inode.new ≡ inode_of (S.shape store.old) x ino)) }
    ensures sound { IfOk result (λ found. IsSoundInode (S.shape store.old) ino inode.new found.0) }
    ensures form { IfOk result (λ found. IsOfForm inode.new found.1) }
    ensures inode { IfOk result (λ _. IfSome (S.image store.old) (λ x. HasOwnInode (S.shape store.old) (inode_of (S.shape store.old) x ino) ino)) }
    ensures fault { IfErr result (IsInodeFault S.Store ino store.old store.new) }
    ensures stays { StoreStays S.Store store.old store.new }
    ensures fetches { S.fetches store.new ≤ S.fetches store.old + 1 }
{
    let core = read_core(store, ino, inode)?;
    let form = form_of(alloc, store.geometry(), &core, inode)?;
    Ok((core, form))
}

/// Reads an inode: rules 10 and 11.
fn read_core<S: Store>(
    store: &mut S,
    ino: u64,
    inode: &mut [u8; INODE_BYTES],
) -> Result<Core, ForkFault>
    requires whole { S.IsWhole store.old }
    requires place { IsInode (S.shape store.old) ino }
    ensures bytes { IfOk result (λ _. IfSome (S.image store.old) (λ x. inode.new ≡ inode_of (S.shape store.old) x ino)) }
    ensures rule_ten { IfOk result (λ _. HasCore inode.new ino (S.shape store.old).meta_uuid) }
    ensures rule_eleven { IfOk result (λ _. HasBothForks (S.shape store.old) inode.new ino) }
    ensures core { IfOk result (λ core. CoreHolds inode.new core) }
    ensures fault { IfErr result (IsInodeFault S.Store ino store.old store.new) }
    ensures stays { StoreStays S.Store store.old store.new }
    ensures fetches { S.fetches store.new ≤ S.fetches store.old + 1 }
{
    store.inode(ino, inode)?;
    Ok(Core::of_inode(store.geometry(), ino, inode)?)
}
