//! Calls on the tree of a root in node form: what a change asks before it begins.

ghost use Rattle.std.specs.Prelude.{IfOk};
ghost use Rattle.xn_bytes.specs.Superblock.{IsInode};
ghost use Rattle.xn_bytes.specs.Trees.{AreBlocks};
ghost use Rattle.xn_inode.specs.Frames.{StoreStays};

use super::{Asked, attributes, check_rows};
use std::alloc::Global;
use std::test::Fail;
use xn_datree::{Fork, Tree};
use xn_inode::{Core, Extents, Store};
use xn_leaf::DirLeaf;
use xn_make::ROOT;

/// The file block of the root of a directory's tree.
const TREE: u64 = 8_388_608;

/// How many blocks a path from the root has, and whether an entry of a size goes into the leaf for a hash.
const TREE_CALLS: &str = r"
levels | single | 0 Ok(1)
levels | node | 0 Ok(2)
levels | deep | 0 Ok(3)
levels | leaf | 0 Err(Broken { rule: 18, block: 48 })
levels | node hashed:48 8=0000 | 0 Err(Broken { rule: 18, block: 48 })
levels | single inode:128 214=02 | 0 Err(Broken { rule: 18, block: 0 })
levels | node hashed:49 8=0000 | 0 Ok(2)
levels | node fails:4 | 0 Err(Read)

# four entries in the first leaf, three and a stale one in the second, two in the last
fits 0 4000 | node | 0 Ok(true)
fits 0 4001 | node | 0 Ok(false)
fits 771273961 4008 | node | 0 Ok(true)
fits 771273961 4009 | node | 0 Ok(false)
fits 4294967295 4016 | node | 0 Ok(true)
fits 4294967295 4017 | node | 0 Ok(false)
fits 0 4000 | deep | 0 Ok(true)
fits 0 4032 | deep | 0 Ok(false)
fits 0 8 | node hashed:49 8=0000 | 0 Err(Broken { rule: 18, block: 49 })
fits 4294967295 8 | node hashed:49 8=0000 | 0 Ok(true)
fits 0 8 | node fails:5 | 0 Err(Read)
";

/// Makes a call of a row on the root's tree, and tells what it gives.
pub(super) fn call<S: Store>(alloc: Global, store: &mut S, words: &[String]) -> Result<String, Fail>
    requires whole { S.IsWhole store.old }
    requires place { IsInode (S.shape store.old) ROOT }
{
    match words {
        [word] if word.as_str() == "levels" => {
            let fork = root_fork(alloc, store)?;
            let levels = Tree::<DirLeaf>::levels(alloc, store, &fork);
            Ok(format!(in alloc; "{levels:?}\n")?)
        }
        [word, hash, size] if word.as_str() == "fits" => {
            let fork = root_fork(alloc, store)?;
            let hash = hash.parse::<u32>().ok().ok_or("a hash")?;
            let size = size.parse::<u64>().ok().ok_or("a size")?;
            let fits = Tree::<DirLeaf>::fits(alloc, store, &fork, hash, size);
            Ok(format!(in alloc; "{fits:?}\n")?)
        }
        _ => attributes::call(alloc, store, words),
    }
}

/// The data fork of the root.
fn root_fork<S: Store>(alloc: Global, store: &mut S) -> Result<Fork, Fail>
    requires whole { S.IsWhole store.old }
    requires place { IsInode (S.shape store.old) ROOT }
    ensures blocks { IfOk result (λ fork. AreBlocks (S.shape store.new) fork.extents) }
    ensures stays { StoreStays S.Store store.old store.new }
{
    let mut inode = [0; 512];
    store.inode(ROOT, &mut inode).ok().ok_or("reading failed")?;
    let core = Core::read(&inode, ROOT, store.geometry().meta_uuid())
        .ok()
        .ok_or("no core")?;
    let extents = Extents::read(alloc, core.data_fork(&inode), core.data_extents())
        .ok()
        .ok_or("no list of extents")?;
    if !extents.are_home(store.geometry()) {
        return Err(Fail::from("a block is out of range"));
    }
    Ok(Fork {
        owner: ROOT,
        attribute: false,
        extents,
        root: TREE,
        room: 12,
    })
}

#[test]
fn calls_on_the_tree(rt: HostRuntime) {
    check_rows(&rt, Asked::Tree, "trees", TREE_CALLS);
}
