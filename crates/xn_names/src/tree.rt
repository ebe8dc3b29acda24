//! The place of a directory in the tree of directories.

ghost use Rattle.std.specs.Prelude.{◌≡◌, ◌↔◌, ℕ, IsTrue, List, [], map};
ghost use Rattle.std.specs.List.Sorted.{IsNonDecreasingBy};
ghost use Rattle.xn_rules.specs.Namings.{standing_in, Leads};
ghost use Rattle.xn_rules.specs.NameRules.{IsUnnamed, HasPlaceInTree};
ghost use Rattle.xn_names.specs.Names.{naming_of};

use crate::entry::Naming;
use crate::order::naming;
use xn_inode::Super;

/// Whether no entry names a directory that isn't the root.
pub fn is_unnamed(geometry: &Super, namings: &[Naming], dir: u64) -> bool
    requires { IsNonDecreasingBy (λ n. n.ino) namings.now }
    ensures { IsTrue result ↔ IsUnnamed geometry.now (map naming_of namings.now) dir }
{
    dir != geometry.root() && naming(namings, dir).is_empty()
}

/// Whether no entry names the root; another directory is named by one, and entries lead to it from the root; or it is detached, and
/// has no entry.
pub fn has_place(
    geometry: &Super,
    namings: &[Naming],
    dir: u64,
    is_empty: bool,
    is_reached: bool,
) -> bool
    requires { IsNonDecreasingBy (λ n. n.ino) namings.now }
    ensures { (IsTrue is_empty ↔ (standing_in dir (map naming_of namings.now) ≡ []))
        → (IsTrue is_reached ↔ ((path : List ℕ) × Leads (map naming_of namings.now) geometry.now.root path dir))
        → (IsTrue result ↔ HasPlaceInTree geometry.now (map naming_of namings.now) dir) }
{
    match naming(namings, dir).len() {
        0 => dir == geometry.root() || is_empty,
        1 => dir != geometry.root() && is_reached,
        _ => false,
    }
}
