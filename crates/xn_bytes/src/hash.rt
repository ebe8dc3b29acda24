ghost use Rattle.std.specs.Prelude.{◌≡◌};
ghost use Rattle.xn_bytes.specs.Hashes.{name_hash_of, parent_hash_of};

/// The hash of a name, by which a directory's leaf entries are sorted (`xfs_da_hashname`).
#[tactic(auto, unfolding(crate::specs::Hashes::name_hash_of))]
pub fn name_hash(bytes: &[u8]) -> u32
    ensures { result ≡ name_hash_of bytes.now }
{
    let mut hash = 0u32;
    for byte in bytes {
        hash = u32::from(*byte) ^ hash.rotate_left(7);
    }
    hash
}

/// The hash of a parent record, by which an attribute fork finds it: the name's, xor the upper and the lower half of
/// the parent's inode number.
pub fn parent_hash(name: &[u8], parent: u64) -> u32
    ensures { result ≡ parent_hash_of name.now parent }
{
    let upper = (parent >> 32) as u32;
    let lower = (parent & 0xffff_ffff) as u32;
    name_hash(name) ^ upper ^ lower
}
