//! Inodes after items.

ghost use Rattle.std.specs.Prelude.{◌≡◌, ◌+◌, ◌≤◌, IfSome, MatchOption, length};
ghost use Rattle.xn_bytes.specs.Numbers.{overlaid};
ghost use Rattle.xn_settled.specs.Inodes.{fork_end as fork_end_in, front_of, inode_after};

use crate::stored::store_core;
use xn_bytes::{Bytes, put_checksum, u8_at};
use xn_changes::InodeItem;

/// Where the data fork begins in an inode.
const DATA_FORK: usize = 176;

/// Where the fork offset stands in a core, in units of 8 bytes.
const FORK_OFFSET: usize = 82;

const INODE_BYTES: usize = 512;

const CHECKSUM: usize = 100;

/// Makes an inode's bytes those after an item of a transaction whose commit stands in the record with that sequence number.
pub fn lay_inode(item: &InodeItem, lsn: u64, inode: &mut [u8])
    requires core { length item.now.core ≡ 176 }
    requires inode { length inode.old ≡ 512 }
    requires data_fork { IfSome item.now.data_fork (λ fork. 176 + length fork ≤ 512) }
    requires attr_fork { IfSome item.now.attr_fork (λ fork. fork_end_in item.now.core + length fork ≤ 512) }
    ensures value { inode.new ≡ inode_after item.now lsn inode.old }
    ensures length { length inode.new ≡ length inode.old }
{
    store_core(item.core.as_slice(), lsn, inode);
    lay_fork(&item.data_fork, DATA_FORK, inode);
    lay_fork(&item.attr_fork, fork_end(item.core.as_slice()), inode);
    put_checksum(inode, CHECKSUM);
}

/// Lays the logged front of a fork down at a place, if it is logged.
fn lay_fork(fork: &Option<Bytes>, at: usize, inode: &mut [u8])
    requires { IfSome fork.now (λ fork. at + length fork ≤ length inode.old) }
    ensures value { inode.new ≡ overlaid inode.old at (front_of fork.now) }
    ensures length { length inode.new ≡ length inode.old }
{
    if let Some(fork) = fork {
        let bytes = fork.as_slice();
        inode[at..at + bytes.len()].copy_from_slice(bytes);
    }
}

/// Where the logged core says that the data fork ends and the attribute fork begins.
pub(crate) fn fork_end(core: &[u8]) -> usize
    requires { length core.now ≡ 176 }
    ensures { result ≡ fork_end_in core.now }
{
    let offset = u8_at(core, FORK_OFFSET);
    if offset == 0 {
        INODE_BYTES
    } else {
        DATA_FORK + 8 * offset as usize
    }
}
