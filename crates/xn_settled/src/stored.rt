//! An inode's core in the form that is stored, from the form that is logged.

ghost use Rattle.std.specs.Prelude.{◌≡◌, ◌+◌, ◌*◌, ◌≤◌, length, replicate, slice_range};
ghost use Rattle.xn_bytes.specs.Numbers.{overlaid};
ghost use Rattle.xn_settled.specs.Inodes.{change_fields, fork_fields, kind_fields, own_fields, owner_fields, size_fields, stored, stored_core, stored_time, time_fields, has_wide_times as wide_times_in};

use byteorder::{ByteOrder, LittleEndian};
use xn_bytes::{put_u16, put_u32, put_u64};

/// The bit of the flags by which time stamps are one number of 64 bits.
const WIDE_TIMES: u64 = 8;

/// Stores the core that the log has over that of an inode, but for the inode's number of the next unlinked one, which stays. The
/// sequence number becomes this one, and the checksum zeros.
pub(crate) fn store_core(core: &[u8], lsn: u64, inode: &mut [u8])
    requires { (length core.now ≡ 176) × (length inode.old ≡ 512) }
    ensures value { inode.new ≡ overlaid inode.old 0 (stored_core core.now lsn inode.old) }
    ensures length { length inode.new ≡ length inode.old }
{
    store_kind(core, inode);
    store_owner(core, inode);
    store_times(core, inode);
    store_size(core, inode);
    store_forks(core, inode);
    put_u32(inode, 100, 0);
    store_changes(core, lsn, inode);
    store_own(core, inode);
}

/// Stores the number of two bytes at a place.
#[tactic(auto, unfolding(xn_bytes::specs::Numbers::little_number_at, crate::specs::Inodes::stored))]
fn store_u16(core: &[u8], at: usize, inode: &mut [u8])
    requires { (at + 2 ≤ length core.now) × (at + 2 ≤ length inode.old) }
    ensures value { inode.new ≡ overlaid inode.old at (stored 2 at core.now) }
    ensures length { length inode.new ≡ length inode.old }
{
    put_u16(inode, at, LittleEndian::read_u16(&core[at..]));
}

/// Stores the number of four bytes at a place.
#[tactic(auto, unfolding(xn_bytes::specs::Numbers::little_number_at, crate::specs::Inodes::stored))]
fn store_u32(core: &[u8], at: usize, inode: &mut [u8])
    requires { (at + 4 ≤ length core.now) × (at + 4 ≤ length inode.old) }
    ensures value { inode.new ≡ overlaid inode.old at (stored 4 at core.now) }
    ensures length { length inode.new ≡ length inode.old }
{
    put_u32(inode, at, LittleEndian::read_u32(&core[at..]));
}

/// Stores the number of eight bytes at a place.
#[tactic(auto, unfolding(xn_bytes::specs::Numbers::little_number_at, crate::specs::Inodes::stored))]
fn store_u64(core: &[u8], at: usize, inode: &mut [u8])
    requires { (at + 8 ≤ length core.now) × (at + 8 ≤ length inode.old) }
    ensures value { inode.new ≡ overlaid inode.old at (stored 8 at core.now) }
    ensures length { length inode.new ≡ length inode.old }
{
    put_u64(inode, at, LittleEndian::read_u64(&core[at..]));
}

/// Stores bytes that are no number.
fn keep_bytes(core: &[u8], from: usize, to: usize, inode: &mut [u8])
    requires { (from ≤ to) × (to ≤ length core.now) × (to ≤ length inode.old) }
    ensures value { inode.new ≡ overlaid inode.old from (slice_range core.now from to) }
    ensures length { length inode.new ≡ length inode.old }
{
    inode[from..to].copy_from_slice(&core[from..to]);
}

/// Puts so many zeros at a place.
fn put_zeros(inode: &mut [u8], at: usize, count: usize)
    requires { at + count ≤ length inode.old }
    ensures value { inode.new ≡ overlaid inode.old at (replicate count 0) }
    ensures length { length inode.new ≡ length inode.old }
{
    inode[at..at + count].fill(0);
}

/// Stores the time stamp at a place.
fn store_time(core: &[u8], at: usize, inode: &mut [u8])
    requires { (length core.now ≡ 176) × (at + 8 ≤ 176) × (at + 8 ≤ length inode.old) }
    ensures value { inode.new ≡ overlaid inode.old at (stored_time at core.now) }
    ensures length { length inode.new ≡ length inode.old }
{
    if has_wide_times(core) {
        store_u64(core, at, inode);
    } else {
        store_u32(core, at, inode);
        store_u32(core, at + 4, inode);
    }
}

/// Whether time stamps are one number.
#[tactic(auto, unfolding(xn_bytes::specs::Numbers::little_number_at))]
fn has_wide_times(core: &[u8]) -> bool
    requires { length core.now ≡ 176 }
    ensures { result ≡ wide_times_in core.now }
{
    LittleEndian::read_u64(&core[120..]) / WIDE_TIMES % 2 == 1
}

/// Stores magic, mode, version and the data fork's format, and zeros in two free bytes.
fn store_kind(core: &[u8], inode: &mut [u8])
    requires { (length core.now ≡ 176) × (length inode.old ≡ 512) }
    ensures value { inode.new ≡ overlaid inode.old 0 (kind_fields core.now) }
    ensures length { length inode.new ≡ length inode.old }
{
    store_u16(core, 0, inode);
    store_u16(core, 2, inode);
    keep_bytes(core, 4, 6, inode);
    put_zeros(inode, 6, 2);
}

/// Stores user, group, link count and project.
fn store_owner(core: &[u8], inode: &mut [u8])
    requires { (length core.now ≡ 176) × (length inode.old ≡ 512) }
    ensures value { inode.new ≡ overlaid inode.old 8 (owner_fields core.now) }
    ensures length { length inode.new ≡ length inode.old }
{
    store_u32(core, 8, inode);
    store_u32(core, 12, inode);
    store_u32(core, 16, inode);
    store_u16(core, 20, inode);
    store_u16(core, 22, inode);
}

/// Stores the wide extent count, and when the inode was last read, written and changed.
fn store_times(core: &[u8], inode: &mut [u8])
    requires { (length core.now ≡ 176) × (length inode.old ≡ 512) }
    ensures value { inode.new ≡ overlaid inode.old 24 (time_fields core.now) }
    ensures length { length inode.new ≡ length inode.old }
{
    store_u64(core, 24, inode);
    store_time(core, 32, inode);
    store_time(core, 40, inode);
    store_time(core, 48, inode);
}

/// Stores size, blocks, the extent size that is wanted, and the narrow extent counts.
fn store_size(core: &[u8], inode: &mut [u8])
    requires { (length core.now ≡ 176) × (length inode.old ≡ 512) }
    ensures value { inode.new ≡ overlaid inode.old 56 (size_fields core.now) }
    ensures length { length inode.new ≡ length inode.old }
{
    store_u64(core, 56, inode);
    store_u64(core, 64, inode);
    store_u32(core, 72, inode);
    store_u32(core, 76, inode);
    store_u16(core, 80, inode);
}

/// Stores the fork offset, the attribute fork's format, flags and generation.
fn store_forks(core: &[u8], inode: &mut [u8])
    requires { (length core.now ≡ 176) × (length inode.old ≡ 512) }
    ensures value { inode.new ≡ overlaid inode.old 82 (fork_fields core.now) }
    ensures length { length inode.new ≡ length inode.old }
{
    keep_bytes(core, 82, 84, inode);
    store_u32(core, 84, inode);
    store_u16(core, 88, inode);
    store_u16(core, 90, inode);
    store_u32(core, 92, inode);
}

/// Stores the count of changes, the sequence number, flags and the extent size of copies that is wanted, and zeros in twelve free bytes.
fn store_changes(core: &[u8], lsn: u64, inode: &mut [u8])
    requires { (length core.now ≡ 176) × (length inode.old ≡ 512) }
    ensures value { inode.new ≡ overlaid inode.old 104 (change_fields core.now lsn) }
    ensures length { length inode.new ≡ length inode.old }
{
    store_u64(core, 104, inode);
    put_u64(inode, 112, lsn);
    store_u64(core, 120, inode);
    store_u32(core, 128, inode);
    put_zeros(inode, 132, 12);
}

/// Stores when the inode was made, its number and its uuid.
fn store_own(core: &[u8], inode: &mut [u8])
    requires { (length core.now ≡ 176) × (length inode.old ≡ 512) }
    ensures value { inode.new ≡ overlaid inode.old 144 (own_fields core.now) }
    ensures length { length inode.new ≡ length inode.old }
{
    store_time(core, 144, inode);
    store_u64(core, 152, inode);
    keep_bytes(core, 160, 176, inode);
}
