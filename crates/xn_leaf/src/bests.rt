//! Bests: the lengths of the greatest free regions of data blocks, side by side.

ghost use Rattle.std.specs.Prelude.{◌≡◌, ◌+◌, ◌*◌, ◌≤◌, length, IfOk};
ghost use Rattle.xn_bytes.specs.Numbers.{number_at};
ghost use Rattle.xn_bytes.specs.HashedTree.{bests_at};

use std::alloc::{AllocError, Global};
use xn_bytes::u16_at;

const BEST_BYTES: usize = 2;

/// The best of an index among those from a place on.
pub(crate) fn best_in(block: &[u8], at: usize, index: usize) -> u16
    requires size { length block.now ≡ 4096 }
    requires place { at + 2 * index + 2 ≤ 4096 }
    ensures { result ≡ number_at 2 (at + 2 * index) block.now }
{
    u16_at(block, at + BEST_BYTES * index)
}

/// So many bests from a place on.
pub(crate) fn bests_in(
    alloc: Global,
    block: &[u8],
    at: usize,
    count: usize,
) -> Result<Vec<u16>, AllocError>
    requires size { length block.now ≡ 4096 }
    requires place { at + 2 * count ≤ 4096 }
    ensures { IfOk result (λ bests. bests.items ≡ bests_at count at block.now) }
{
    let mut bests = Vec::new(alloc);
    for index in 0..count {
        bests.push(best_in(block, at, index))?;
    }
    Ok(bests)
}
