ghost use Rattle.std.specs.Prelude.{◌≡◌, ◌≢◌, ℕ, ◌+◌, ◌*◌, ◌/◌, ◌%◌, ◌^◌, ◌<◌, ◌≤◌, ◌↔◌, ◌==◌, not, [], length, filter, IsTrue, OnOk, OnErr, unwrap_or};
ghost use Rattle.std.specs.Option.{option_copied};
ghost use Rattle.xn_bytes.specs.Numbers.{sector_of};
ghost use Rattle.xn_inode.specs.Stores.{AreFree, IsGiven, IsTaken};
ghost use Rattle.xn_replay.specs.Overlay.{ViewState, kept_at, AreAllKept, LaysOver, LaysFront};

use std::alloc::Global;
use std::collections::BTreeMap;
use std::marker::Model;
use xn_bytes::Memory;
use xn_inode::Super;
use xn_pool::Pool;

const SECTOR_SIZE: usize = 512;

/// The settled image by what differs from a machine's: the sectors that were put, kept in memory.
#[derive(Drop)]
pub struct View {
    geometry: Super,
    kept: BTreeMap<u64, [u8; SECTOR_SIZE]>,
    pool: Pool,
}

impl Model for View {
    ghost use Rattle.xn_replay.specs.Overlay.{ViewState};

    ghost Value = { ViewState };

    ghost view = { λ v. record { shape = v.geometry; kept = v.kept.entries; blocks = v.pool.blocks; free = v.pool.free } };
}

impl View {
    /// The home sectors alone, with a pool of blocks that can be taken. It takes no memory.
    pub fn home(alloc: Global, geometry: &Super, pool: Pool) -> View
        ensures { result ≡ record { shape = geometry.now; kept = []; blocks = pool.blocks; free = pool.free } }
    {
        View {
            geometry: *geometry,
            kept: BTreeMap::new(alloc),
            pool,
        }
    }

    /// The superblock of the image.
    pub fn geometry(&self) -> &Super
        ensures { result.now ≡ self.now.shape }
    {
        &self.geometry
    }

    /// How many blocks are free.
    pub fn free_count(&self) -> u64
        ensures count { result ≡ length self.now.free }
        ensures set { AreFree self.now.blocks self.now.free }
    {
        self.pool.free_count()
    }

    /// Makes a block not free, if it is free.
    pub fn mark_used(&mut self, block: u64)
        ensures free { self.new.free ≡ filter (λ other. not (other == block)) self.old.free }
        ensures others { self.new ≡ record self.old { free = self.new.free } }
    {
        self.pool.mark_used(block);
    }

    /// Takes a free block: `near` where that is free, else the least.
    pub fn take_block(&mut self, near: Option<u64>) -> u64
        requires { self.old.free ≢ [] }
        ensures taken { IsTaken near self.old.free self.new.free result }
        ensures others { self.new ≡ record self.old { free = self.new.free } }
    {
        self.pool.take(near)
    }

    /// Makes a block of the pool free. It has no effect on another block.
    pub fn give_block(&mut self, block: u64)
        ensures given { IsGiven self.old.blocks self.old.free self.new.free block }
        ensures others { self.new ≡ record self.old { free = self.new.free } }
    {
        self.pool.give(block);
    }

    /// What is kept of a sector.
    fn sector(&self, sector: u64) -> Option<&[u8; SECTOR_SIZE]>
        ensures { option_copied result ≡ kept_at self.now.kept sector }
    {
        self.kept.get(&sector)
    }

    /// Whether so many sectors from `first` on are all kept.
    pub fn has_all(&self, first: u64, count: usize) -> bool
        requires { first + count < 2 ^ 64 }
        ensures { IsTrue result ↔ AreAllKept self.now.kept first count }
    {
        for k in 0..count {
            if self.sector(first + k as u64).is_none() {
                return false;
            }
        }
        true
    }

    /// Lays what is kept over whole sectors that were read from `first` on.
    pub fn lay_over(&self, first: u64, into: &mut [u8])
        requires { first + length into.old / 512 < 2 ^ 64 }
        ensures { (k : ℕ) → k < length into.old / 512 → sector_of into.new k ≡ unwrap_or (kept_at self.now.kept (first + k)) (sector_of into.old k) }
    {
        for k in 0..into.len() / SECTOR_SIZE {
            if let Some(kept) = self.sector(first + k as u64) {
                into[SECTOR_SIZE * k..SECTOR_SIZE * (k + 1)].copy_from_slice(kept);
            }
        }
    }

    /// Keeps a sector. Without memory nothing changes.
    fn keep_one(&mut self, sector: u64, bytes: &[u8]) -> Result<(), Memory>
        requires { length bytes.now ≡ 512 }
        ensures others { self.new ≡ record self.old { kept = self.new.kept } }
        ensures ok { OnOk result (LaysOver self.old.kept self.new.kept sector bytes.now) }
        ensures err { OnErr result (self.new.kept ≡ self.old.kept) }
    {
        let mut copy = [0; SECTOR_SIZE];
        copy.copy_from_slice(bytes);
        self.kept.insert(sector, copy)?;
        Ok(())
    }

    /// Keeps whole sectors from `first` on. Without memory a front of them may be kept.
    pub fn keep(&mut self, first: u64, bytes: &[u8]) -> Result<(), Memory>
        requires whole { length bytes.now % 512 ≡ 0 }
        requires small { first + length bytes.now / 512 < 2 ^ 64 }
        ensures others { self.new ≡ record self.old { kept = self.new.kept } }
        ensures ok { OnOk result (LaysOver self.old.kept self.new.kept first bytes.now) }
        ensures err { OnErr result (LaysFront self.old.kept self.new.kept first bytes.now) }
    {
        for k in 0..bytes.len() / SECTOR_SIZE {
            let sector = &bytes[SECTOR_SIZE * k..SECTOR_SIZE * (k + 1)];
            self.keep_one(first + k as u64, sector)?;
        }
        Ok(())
    }
}
