//! Entries against the inodes that they name.

ghost use Rattle.std.specs.Prelude.{◌≡◌, ◌<◌, ◌≤◌, ◌↔◌, All, Any, Contains, IsTrue, MatchOption, length, nat_lt};
ghost use Rattle.std.specs.List.{AllAdjacentBelow};
ghost use Rattle.std.specs.List.Sorted.{IsPartitionPoint};
ghost use Rattle.xn_dir.specs.Listings.{entry_of};
ghost use Rattle.xn_census.specs.SortedOut.{RightBy};

use xn_dir::Listed;
use xn_facts::Node;
use xn_near::count_below;

/// Whether the inode of each entry is one of these, which rise, and of the kind that the entry says, where its kind is known.
pub(crate) fn are_right(nodes: &[Node], entries: &[Listed]) -> bool
    requires { AllAdjacentBelow (λ a b. a.ino < b.ino) nodes.now (length nodes.now) }
    ensures { IsTrue result ↔ All (λ listed. RightBy nodes.now (entry_of listed)) entries.now }
{
    let mut near = 0;
    for entry in entries {
        if !is_right(nodes, entry, &mut near) {
            return false;
        }
    }
    true
}

/// Whether that of one entry is. It is sought first at the place `near`, which is the place behind it from then on.
fn is_right(nodes: &[Node], entry: &Listed, near: &mut usize) -> bool
    requires { AllAdjacentBelow (λ a b. a.ino < b.ino) nodes.now (length nodes.now) }
    ensures { IsTrue result ↔ RightBy nodes.now (entry_of entry.now) }
{
    match node_of(nodes, entry.ino, near) {
        Some(node) => match node.known {
            Some(known) => known.kind == entry.kind,
            None => true,
        },
        None => false,
    }
}

/// The one of a number, if it is among these, which rise. It is sought first at the place `near`.
fn node_of<'a>(nodes: &'a [Node], ino: u64, near: &mut usize) -> Option<&'a Node>
    requires { AllAdjacentBelow (λ a b. a.ino < b.ino) nodes.now (length nodes.now) }
    ensures { MatchOption result (Any (λ node. node.ino ≡ ino) nodes.now → ⊥) (λ node. Contains nodes.now node.now × (node.now.ino ≡ ino)) }
{
    let at = count_below(nodes, ino, *near);
    if at < nodes.len() && nodes[at].ino == ino {
        *near = at + 1;
        Some(&nodes[at])
    } else {
        None
    }
}
