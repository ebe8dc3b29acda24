ghost use Rattle.std.specs.Prelude.{◌≡◌, ◌≢◌, ◌≤◌, ℕ, List, [], length, Option, IfOk, IfSome, OnOk, OnErr, option_map};
ghost use Rattle.xn_bytes.specs.Superblock.{Geometry, IsBlock, IsInode};
ghost use Rattle.xn_bytes.specs.Blocks.{block_of, with_block, with_inode};
ghost use Rattle.xn_bytes.specs.Inode.{inode_of};
ghost use Rattle.xn_inode.specs.Stores.{HasStoreCause, IsOneMore, BothImages, MayHavePutBlock, MayHavePutInode, AreFree, IsTaken, IsGiven};

use crate::superblock::Super;

/// Why a call of a store gave up.
#[derive(Clone, Copy, Debug, PartialEq, Eq)]
pub enum StoreFault {
    /// Reading failed. It comes only where the store's count of faults rose.
    Read,
    /// Memory ran out.
    Memory,
}

/// Blocks and inodes of one image, read and put by their numbers, and a set of blocks of which free ones can be taken.
///
/// A block and the inodes whose places it holds are the same bytes: putting one changes the other. A store that tells
/// its image shows it in contracts. After a put that gave up the store may hold a part of the change.
pub trait Store {
    /// The bytes of the image, what was put included, where the store tells them.
    ghost image: { Self → Option (List ℕ) };

    /// What the image's superblock says.
    ghost shape: { Self → Geometry };

    /// Whether all blocks of the image are there, which every call requires.
    ghost IsWhole: { Self → Type 0 };

    /// The blocks that can be free, of which the set never changes, and those that are, in rising order.
    ghost pool: { Self → List ℕ };

    ghost free: { Self → List ℕ };

    /// How often reading has failed. The count never falls and stays below 2^64.
    ghost faults: { Self → ℕ };

    /// How much was fetched: each call fetches at most one piece.
    ghost fetches: { Self → ℕ };

    /// The references that the store holds, by the names that they have in proofs. No call changes which they are.
    ghost references: { Self → List ℕ };

    /// Between two moments the store was only read: what its user knows beside all this stays.
    ghost OnlyRead: { Self → Self → Type 0 };

    /// Between two moments only calls of the store were made: what its user knows beside the image and the free blocks stays.
    ghost OnlyCalled: { Self → Self → Type 0 };

    /// The superblock of the image.
    fn geometry(&self) -> &Super
        ensures { result.now ≡ shape self.now };

    /// Fills the slice of 4,096 bytes with a block.
    fn block(&mut self, block: u64, into: &mut [u8]) -> Result<(), StoreFault>
        requires whole { IsWhole self.old }
        requires place { IsBlock (shape self.old) block }
        requires size { length into.old ≡ 4096 }
        ensures bytes { OnOk result (IfSome (image self.old) (λ x. into.new ≡ block_of (shape self.old) x block)) }
        ensures size { length into.new ≡ 4096 }
        ensures cause { HasStoreCause (faults self.old) (faults self.new) result }
        ensures fetches { IsOneMore (fetches self.old) (fetches self.new) }
        ensures only_read { OnlyRead self.old self.new }
        ensures image { image self.new ≡ image self.old }
        ensures free { free self.new ≡ free self.old }
        ensures shape { shape self.new ≡ shape self.old }
        ensures pool { pool self.new ≡ pool self.old }
        ensures whole { IsWhole self.new }
        ensures references { references self.new ≡ references self.old };

    /// Puts the 4,096 bytes of a block.
    fn put_block(&mut self, block: u64, bytes: &[u8]) -> Result<(), StoreFault>
        requires whole { IsWhole self.old }
        requires place { IsBlock (shape self.old) block }
        requires size { length bytes.now ≡ 4096 }
        ensures put { OnOk result (image self.new ≡ option_map (λ x. with_block (shape self.old) x block bytes.now) (image self.old)) }
        ensures part { OnErr result (BothImages (image self.old) (image self.new) (MayHavePutBlock (shape self.old) block)) }
        ensures cause { HasStoreCause (faults self.old) (faults self.new) result }
        ensures only_called { OnlyCalled self.old self.new }
        ensures fetches { IsOneMore (fetches self.old) (fetches self.new) }
        ensures free { free self.new ≡ free self.old }
        ensures shape { shape self.new ≡ shape self.old }
        ensures pool { pool self.new ≡ pool self.old }
        ensures whole { IsWhole self.new }
        ensures references { references self.new ≡ references self.old };

    /// Fills the slice of 512 bytes with an inode.
    fn inode(&mut self, number: u64, into: &mut [u8]) -> Result<(), StoreFault>
        requires whole { IsWhole self.old }
        requires place { IsInode (shape self.old) number }
        requires size { length into.old ≡ 512 }
        ensures bytes { OnOk result (IfSome (image self.old) (λ x. into.new ≡ inode_of (shape self.old) x number)) }
        ensures size { length into.new ≡ 512 }
        ensures cause { HasStoreCause (faults self.old) (faults self.new) result }
        ensures fetches { IsOneMore (fetches self.old) (fetches self.new) }
        ensures only_read { OnlyRead self.old self.new }
        ensures image { image self.new ≡ image self.old }
        ensures free { free self.new ≡ free self.old }
        ensures shape { shape self.new ≡ shape self.old }
        ensures pool { pool self.new ≡ pool self.old }
        ensures whole { IsWhole self.new }
        ensures references { references self.new ≡ references self.old };

    /// Puts the 512 bytes of an inode.
    fn put_inode(&mut self, number: u64, bytes: &[u8]) -> Result<(), StoreFault>
        requires whole { IsWhole self.old }
        requires place { IsInode (shape self.old) number }
        requires size { length bytes.now ≡ 512 }
        ensures put { OnOk result (image self.new ≡ option_map (λ x. with_inode (shape self.old) x number bytes.now) (image self.old)) }
        ensures part { OnErr result (BothImages (image self.old) (image self.new) (MayHavePutInode (shape self.old) number)) }
        ensures cause { HasStoreCause (faults self.old) (faults self.new) result }
        ensures only_called { OnlyCalled self.old self.new }
        ensures fetches { IsOneMore (fetches self.old) (fetches self.new) }
        ensures free { free self.new ≡ free self.old }
        ensures shape { shape self.new ≡ shape self.old }
        ensures pool { pool self.new ≡ pool self.old }
        ensures whole { IsWhole self.new }
        ensures references { references self.new ≡ references self.old };

    /// How many blocks are free.
    fn free_blocks(&self) -> u64
        requires { IsWhole self.now }
        ensures count { result ≡ length (free self.now) }
        ensures set { AreFree (pool self.now) (free self.now) };

    /// Takes a free block: `near` where that is free, else the least.
    fn take_block(&mut self, near: Option<u64>) -> Result<u64, StoreFault>
        requires whole { IsWhole self.old }
        requires some { free self.old ≢ [] }
        ensures taken { IfOk result (IsTaken near (free self.old) (free self.new)) }
        ensures cause { HasStoreCause (faults self.old) (faults self.new) result }
        ensures only_called { OnlyCalled self.old self.new }
        ensures fetches { IsOneMore (fetches self.old) (fetches self.new) }
        ensures image { image self.new ≡ image self.old }
        ensures shape { shape self.new ≡ shape self.old }
        ensures pool { pool self.new ≡ pool self.old }
        ensures whole { IsWhole self.new }
        ensures references { references self.new ≡ references self.old };

    /// Makes a block of the pool free. It has no effect on another block.
    fn give_block(&mut self, block: u64) -> Result<(), StoreFault>
        requires whole { IsWhole self.old }
        ensures given { OnOk result (IsGiven (pool self.old) (free self.old) (free self.new) block) }
        ensures cause { HasStoreCause (faults self.old) (faults self.new) result }
        ensures only_called { OnlyCalled self.old self.new }
        ensures fetches { IsOneMore (fetches self.old) (fetches self.new) }
        ensures image { image self.new ≡ image self.old }
        ensures shape { shape self.new ≡ shape self.old }
        ensures pool { pool self.new ≡ pool self.old }
        ensures whole { IsWhole self.new }
        ensures references { references self.new ≡ references self.old };

    ghost only_read_at_first: { (s : Self) → OnlyRead s s };

    ghost only_read_on: { (s t u : Self) → OnlyRead s t → OnlyRead t u → OnlyRead s u };

    ghost only_called_where_read: { (s t : Self) → OnlyRead s t → OnlyCalled s t };

    ghost only_called_on: { (s t u : Self) → OnlyCalled s t → OnlyCalled t u → OnlyCalled s u };
}
