//! Where blocks and inodes lie, by the superblock's fields.

ghost use Rattle.std.specs.Prelude.{◌≡◌, ◌≢◌, ◌⊎◌, ◌*◌, ◌+◌, ◌/◌, ◌%◌, ◌≤◌, ◌<◌, ◌↔◌, ◌^◌, IsTrue};
ghost use Rattle.xn_bytes.specs.Superblock.{HasGroups, HasLog, HasRoot, IsBlock, IsInode, group_of, block_in_group, linear_block};
ghost use Rattle.xn_bytes.specs.Blocks.{IsLogBlock, IsHome};
ghost use Rattle.xn_inode.specs.Fields.{geometry_from, HasLogPlace, IsRunOfGroup, IsRunOutsideLog};

use crate::fields::Fields;

impl Fields {
    /// The group of a block number.
    fn group(&self, block: u64) -> u64
        requires { self.now.ag_block_log ≤ 31 }
        ensures { result ≡ group_of (geometry_from self.now) block }
    {
        block >> self.ag_block_log
    }

    /// The block within its group.
    fn in_group(&self, block: u64) -> u64
        requires { self.now.ag_block_log ≤ 31 }
        ensures value { result ≡ block_in_group (geometry_from self.now) block }
        ensures small { result < 2 ^ 31 }
    {
        block % (1 << self.ag_block_log)
    }

    /// The block counted through all groups.
    pub fn linear(&self, block: u64) -> u64
        requires groups { HasGroups (geometry_from self.now) }
        requires group { group_of (geometry_from self.now) block < self.now.ag_count }
        ensures { result ≡ linear_block (geometry_from self.now) block }
    {
        self.group(block) * u64::from(self.ag_blocks) + self.in_group(block)
    }

    pub fn is_block(&self, block: u64) -> bool
        requires { HasGroups (geometry_from self.now) }
        ensures { IsTrue result ↔ IsBlock (geometry_from self.now) block }
    {
        self.group(block) < u64::from(self.ag_count)
            && self.in_group(block) < u64::from(self.ag_blocks)
            && self.linear(block) < self.data_blocks
    }

    /// Whether the log's place is accepted: within one group and in range.
    pub fn has_log_place(&self) -> bool
        requires { HasGroups (geometry_from self.now) }
        ensures { IsTrue result ↔ HasLogPlace (geometry_from self.now) }
    {
        let blocks = u64::from(self.log_blocks);
        self.log_start != 0
            && (512..=524_288).contains(&blocks)
            && self.group(self.log_start) < u64::from(self.ag_count)
            && self.in_group(self.log_start) + blocks <= u64::from(self.ag_blocks)
            && self.linear(self.log_start) + blocks <= self.data_blocks
    }

    /// Whether a block of the data is one of the log's.
    fn is_log_block(&self, block: u64) -> bool
        requires groups { HasGroups (geometry_from self.now) }
        requires group { group_of (geometry_from self.now) block < self.now.ag_count }
        requires log { group_of (geometry_from self.now) self.now.log_start < self.now.ag_count }
        ensures { IsTrue result ↔ IsLogBlock (geometry_from self.now) block }
    {
        let start = self.linear(self.log_start);
        let linear = self.linear(block);
        start <= linear && linear - start < u64::from(self.log_blocks)
    }

    /// Whether a fork may map a block: in range, outside the log, and not the first of its group.
    pub fn is_home(&self, block: u64) -> bool
        requires groups { HasGroups (geometry_from self.now) }
        requires log { group_of (geometry_from self.now) self.now.log_start < self.now.ag_count }
        ensures { IsTrue result ↔ IsHome (geometry_from self.now) block }
    {
        self.is_block(block) && self.in_group(block) != 0 && !self.is_log_block(block)
    }

    /// Whether a run of blocks lies within one group, the group's first block not among them, and in range.
    pub fn is_run_of_group(&self, block: u64, count: u64) -> bool
        requires groups { HasGroups (geometry_from self.now) }
        requires end { block + count < 2 ^ 64 }
        ensures { IsTrue result ↔ IsRunOfGroup (geometry_from self.now) block count }
    {
        self.group(block) < u64::from(self.ag_count)
            && self.in_group(block) != 0
            && self.in_group(block) + count <= u64::from(self.ag_blocks)
            && self.linear(block) + count <= self.data_blocks
    }

    /// Whether a run of blocks of one group has none of the log's.
    pub fn is_run_outside_log(&self, block: u64, count: u64) -> bool
        requires groups { HasGroups (geometry_from self.now) }
        requires run { IsRunOfGroup (geometry_from self.now) block count }
        requires log { group_of (geometry_from self.now) self.now.log_start < self.now.ag_count }
        requires log_end { linear_block (geometry_from self.now) self.now.log_start + self.now.log_blocks ≤ self.now.data_blocks }
        ensures { IsTrue result ↔ IsRunOutsideLog (geometry_from self.now) block count }
    {
        let start = self.linear(self.log_start);
        let linear = self.linear(block);
        linear + count <= start || start + u64::from(self.log_blocks) <= linear
    }
}
