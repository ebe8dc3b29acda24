//! Leaf entries that are wanted against those that stand there.

ghost use Rattle.std.specs.Prelude.{◌≡◌, ◌<◌, ◌↔◌, ◌+◌, ◌*◌, ◌^◌, IsTrue, IsPermutation, IsSortedBy};
ghost use Rattle.std.specs.Ordering.{nat_cmp, ordering_then};
ghost use Rattle.xn_dir.specs.Compare.{comes_before};

use std::cmp::Ordering;
use xn_leaf::HashAt;

/// Rule 19: whether the leaf entries are those that are wanted, each as often.
pub(crate) fn are_same(wanted: &[HashAt], live: Vec<HashAt>) -> bool
    requires { IsSortedBy comes_before wanted.now }
    ensures { IsTrue result ↔ IsPermutation wanted.now live.items }
{
    are_equal(wanted, &in_order(live))
}

/// Leaf entries by hash, and of one hash by address.
pub(crate) fn in_order(leaves: Vec<HashAt>) -> Vec<HashAt>
    ensures same { IsPermutation leaves.items result.items }
    ensures sorted { IsSortedBy comes_before result.items }
{
    let mut leaves = leaves;
    leaves.sort_unstable_by(|leaf, other| compare(leaf, other));
    leaves
}

fn compare(leaf: &HashAt, other: &HashAt) -> Ordering
    ensures { result ≡ ordering_then (nat_cmp leaf.now.hash other.now.hash) (nat_cmp leaf.now.address other.now.address) }
{
    in_one(*leaf).cmp(&in_one(*other))
}

/// Hash and address as one number, since numbers are compared faster than pairs.
fn in_one(leaf: HashAt) -> u64
    ensures value { result ≡ 2 ^ 32 * leaf.hash + leaf.address }
    ensures small { leaf.address < 2 ^ 32 }
{
    0x1_0000_0000 * u64::from(leaf.hash) + u64::from(leaf.address)
}

fn are_equal(leaves: &[HashAt], others: &[HashAt]) -> bool
    ensures { IsTrue result ↔ (leaves.now ≡ others.now) }
{
    leaves == others
}
