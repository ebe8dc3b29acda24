ghost use Rattle.std.specs.Prelude.{◌≡◌, ◌+◌, ◌≤◌, ◌↔◌, IsTrue, IfOk, IfErr, OnErr, IfSome};
ghost use Rattle.xn_bytes.specs.Causes.{Rose};
ghost use Rattle.xn_bytes.specs.Inode.{inode_of};
ghost use Rattle.xn_meaning.specs.Manifests.{HasPlaces, IsLive, Manifest as Said};
ghost use Rattle.xn_inode.specs.Frames.{StoreStays};
ghost use Rattle.xn_inode.specs.declared.store.StoreFault.TheVariants.{Read};
ghost use Rattle.xn_ns.specs.Sights.{IsSightOf, HasPlace};

use xn_bytes::Kind;
use xn_inode::{Core, Store, StoreFault, Super};
use xn_text::Manifest;

const INODE_BYTES: usize = 512;

/// What an inode is to a command that needs a directory.
#[derive(Clone, Copy, Debug, PartialEq, Eq)]
pub(crate) enum Sight {
    /// It is not live.
    Gone,
    /// It breaks rule 10 or 11.
    Broken { rule: u8 },
    /// It is no directory.
    Other,
    /// It is a directory without a link, and not the root.
    Detached,
    /// It is the root or a directory with a link.
    Attached,
}

/// Looks at an inode. It reads at most the inode, and this only where it is live.
pub(crate) fn look_at<S: Store>(
    store: &mut S,
    manifest: &Manifest,
    ino: u64,
) -> Result<Sight, StoreFault>
    requires whole { S.IsWhole store.old }
    requires places { HasPlaces (S.shape store.old) manifest.now }
    ensures seen { IfOk result (λ seen. IfSome (S.image store.old) (λ x. IsSightOf (S.shape store.old) manifest.now (inode_of (S.shape store.old) x ino) ino seen)) }
    ensures place { IfOk result (HasPlace (S.shape store.old) ino) }
    ensures cause { IfErr result (λ fault. fault ≡ Read → Rose (S.faults store.old) (S.faults store.new)) }
    ensures live { OnErr result (IsLive (S.shape store.old) manifest.now ino) }
    ensures stays { StoreStays S.Store store.old store.new }
    ensures fetches { S.fetches store.new ≤ S.fetches store.old + 1 }
{
    if !is_live(store.geometry(), manifest, ino) {
        return Ok(Sight::Gone);
    }
    let mut inode = [0; INODE_BYTES];
    store.inode(ino, &mut inode)?;
    Ok(sight_of(store.geometry(), ino, &inode))
}

/// Whether an inode is live: listed by the manifest, and none of the superblock's own.
pub(crate) fn is_live(geometry: &Super, manifest: &Manifest, ino: u64) -> bool
    ensures { IsTrue result ↔ IsLive geometry.now manifest.now ino }
{
    manifest.holds(ino) && !geometry.own_inode(ino)
}

/// What a live inode is, by its bytes.
fn sight_of(geometry: &Super, ino: u64, inode: &[u8]) -> Sight
    ensures { (m : Said) → IsLive geometry.now m ino → IsSightOf geometry.now m inode.now ino result }
{
    let core = match Core::of_inode(geometry, ino, inode) {
        Ok(core) => core,
        Err(fault) => return Sight::Broken { rule: fault.rule },
    };
    if core.kind() != Kind::Dir {
        Sight::Other
    } else if ino == geometry.root() || core.nlink() != 0 {
        Sight::Attached
    } else {
        Sight::Detached
    }
}
