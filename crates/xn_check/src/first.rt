//! The first inode that breaks a rule.

ghost use Rattle.std.specs.Prelude.{◌≡◌, ℕ, ◌<◌, All, List, MatchOption, length, map};
ghost use Rattle.std.specs.List.{AllAdjacentBelow};
ghost use Rattle.xn_meaning.specs.Manifests.{Manifest};
ghost use Rattle.xn_rules.specs.Namings.{AreLive};
ghost use Rattle.xn_rules.specs.NameRules.{Stands};
ghost use Rattle.xn_rules.specs.Sound.{IsFirstInode};
ghost use Rattle.xn_facts.specs.Facts.{NodeHolds};
ghost use Rattle.xn_check.specs.Known.{AreSearched, NamesHold, meant};

use crate::names::{Names, Near};
use crate::rules::broken_rule;
use xn_facts::{Broken, Node};
use xn_inode::Super;

/// The least inode that breaks a rule, with the least rule that it breaks; else all of them stand. The nodes are those of all live
/// inodes, in order.
pub(crate) fn first_broken(geometry: &Super, names: &Names, nodes: &[Node]) -> Option<(u64, Broken)>
    requires { AreSearched names.now }
    ensures { (m : Manifest) (image : List ℕ) → NamesHold geometry.now m image names.now → AreLive geometry.now m (map (λ node. node.ino) nodes.now)
        → All (NodeHolds geometry.now image) nodes.now
        → MatchOption result (All (Stands geometry.now m image (meant names.now)) (map (λ node. node.ino) nodes.now))
        (λ first. IsFirstInode geometry.now m image (meant names.now) first.1.rule first.0 first.1.block) }
{
    let mut near = Near {
        wholes: 0,
        namings: 0,
    };
    for node in nodes {
        if let Some(broken) = broken_rule(geometry, names, node, &mut near) {
            return Some((node.ino, broken));
        }
    }
    None
}
