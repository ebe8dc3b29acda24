//! Parents in order: by the number of the directory, then by the bytes of the name, then by the generation.

ghost use Rattle.std.specs.Prelude.{◌≡◌, ◌↔◌, IsTrue, IsPermutation, IsSortedBy, length};
ghost use Rattle.std.specs.List.{AllAdjacentBelow};
ghost use Rattle.std.specs.Ordering.{is_lt};
ghost use Rattle.std.specs.declared.cmp.Ordering.TheVariants.{Less};
ghost use Rattle.xn_items.specs.Viewed.{record_of};
ghost use Rattle.xn_parent.specs.Order.{record_cmp};

use std::cmp::Ordering;
use xn_items::ParentRec;

/// The parents in order.
pub(crate) fn in_order(parents: Vec<ParentRec>) -> Vec<ParentRec>
    ensures same { IsPermutation parents.items result.items }
    ensures sorted { IsSortedBy (λ a b. is_lt (record_cmp (record_of a) (record_of b))) result.items }
{
    let mut sorted = parents;
    sorted.sort_unstable_by(compare);
    sorted
}

/// Whether each parent comes before the next, so that none stands twice.
pub(crate) fn rise(parents: &[ParentRec]) -> bool
    ensures { IsTrue result ↔ AllAdjacentBelow (λ a b. record_cmp (record_of a) (record_of b) ≡ Less) parents.now (length parents.now) }
{
    for next in 1..parents.len() {
        if !compare(&parents[next - 1], &parents[next]).is_lt() {
            return false;
        }
    }
    true
}

// Names cost most to compare: they are looked at only within one directory.
fn compare(parent: &ParentRec, other: &ParentRec) -> Ordering
    ensures { result ≡ record_cmp (record_of parent.now) (record_of other.now) }
{
    parent
        .dir
        .cmp(&other.dir)
        .then_with(|| parent.name.bytes().cmp(other.name.bytes()))
        .then(parent.generation.cmp(&other.generation))
}
