//! The live inodes in rising order, gathered chunk by chunk.

ghost use Rattle.std.specs.Prelude.{◌≡◌, ◌↔◌, ◌^◌, ◌<◌, ◌≤◌, length, slice_index, Contains, IfOk, IsTrue, MatchOption};
ghost use Rattle.std.specs.List.{AllAdjacentBelow};
ghost use Rattle.xn_rules.specs.Namings.{AreLive};
ghost use Rattle.xn_live.specs.Gathering.{AreAdded, AreRisingBelow, IsLiveAt};

use std::alloc::Global;
use xn_bytes::Memory;
use xn_inode::Super;
use xn_text::Manifest;

/// How many inodes a chunk has.
const CHUNK_INODES: u64 = 64;

/// The live inodes in rising order: those that a manifest lists, less the superblock's own.
pub fn live_inodes(alloc: Global, geometry: &Super, manifest: &Manifest) -> Result<Vec<u64>, Memory>
    ensures { IfOk result (λ live. AreLive geometry.now manifest.now live.items) }
{
    let mut live = Vec::new(alloc);
    let chunks = manifest.chunks();
    for chunk in chunks {
        add_chunk(geometry, *chunk, &mut live)?;
    }
    Ok(live)
}

/// Where an inode stands among them, if it is live.
pub fn place_of(live: &[u64], ino: u64) -> Option<usize>
    requires { AllAdjacentBelow (λ a b. a < b) live.now (length live.now) }
    ensures { MatchOption result (¬ Contains live.now ino) (λ at. (at < length live.now) × (slice_index live.now at ≡ ino)) }
{
    live.binary_search(&ino).ok()
}

/// Adds the live inodes of a chunk behind those that stand in front of it.
fn add_chunk(geometry: &Super, chunk: (u64, u64), live: &mut Vec<u64>) -> Result<(), Memory>
    requires small { chunk.0 ≤ 2 ^ 56 }
    requires behind { AreRisingBelow chunk.0 live.old.items }
    ensures { IfOk result (λ _. AreAdded geometry.now chunk live.old.items live.new.items) }
{
    for k in 0..CHUNK_INODES {
        if !is_live_at(geometry, chunk, k) {
            continue;
        }
        live.push(chunk.0 + k)?;
    }
    Ok(())
}

/// Whether the inode at a place of a chunk is live: in use by the chunk's mask, and none of the superblock's own.
fn is_live_at(geometry: &Super, chunk: (u64, u64), k: u64) -> bool
    requires small { chunk.0 ≤ 2 ^ 56 }
    requires within { k < 64 }
    ensures { IsTrue result ↔ IsLiveAt geometry.now chunk k }
{
    let (start, mask) = chunk;
    mask >> k & 1 == 0 && !geometry.own_inode(start + k)
}

#[cfg(test)]
mod tests {
    use super::*;
    use std::test::Fail;
    use xn_bytes::{put_checksum, put_u16, put_u32, put_u64};

    /// Of one group of 576 blocks, with an own inode.
    fn geometry(own: u64) -> Result<Super, Fail> {
        let mut sector = [0; 512];
        put_u32(&mut sector, 0, 0x5846_5342);
        put_u32(&mut sector, 4, 4096);
        put_u64(&mut sector, 8, 576);
        put_u64(&mut sector, 48, 64);
        put_u64(&mut sector, 56, 128);
        put_u64(&mut sector, 72, own);
        put_u32(&mut sector, 84, 576);
        put_u32(&mut sector, 88, 1);
        put_u32(&mut sector, 96, 512);
        put_u16(&mut sector, 100, 5);
        put_u16(&mut sector, 102, 512);
        put_u16(&mut sector, 104, 512);
        put_u16(&mut sector, 106, 8);
        sector[123] = 3;
        sector[124] = 10;
        put_u32(&mut sector, 216, 0x81);
        put_checksum(&mut sector, 224);
        Ok(Super::read(&sector, 4608).ok().ok_or("accepted")?)
    }

    const TEXT: &[u8] = b"xfsns-manifest 1\n\
chunk 128 fffffffffffffff0\n\
chunk 256 7ffffffffffffffe\n\
pool 40 2\n";

    #[test]
    fn two_chunks(rt: HostRuntime) -> Result<(), Fail> {
        let geometry = geometry(0)?;
        let manifest = Manifest::read(rt.alloc(), TEXT).ok().ok_or("a manifest")?;
        let live = live_inodes(rt.alloc(), &geometry, &manifest)?;
        assert_eq!(rt; live.as_slice(), [128, 129, 130, 131, 256, 319].as_slice());
        assert_eq!(rt; place_of(&live, 319), Some(5));
        assert_eq!(rt; place_of(&live, 132), None);
        Ok(())
    }

    #[test]
    fn own_inode_left_out(rt: HostRuntime) -> Result<(), Fail> {
        let geometry = geometry(130)?;
        let manifest = Manifest::read(rt.alloc(), TEXT).ok().ok_or("a manifest")?;
        let live = live_inodes(rt.alloc(), &geometry, &manifest)?;
        assert_eq!(rt; live.as_slice(), [128, 129, 131, 256, 319].as_slice());
        assert_eq!(rt; place_of(&live, 130), None);
        Ok(())
    }
}
