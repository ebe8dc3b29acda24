//! The dotdot of a directory.

ghost use Rattle.std.specs.Prelude.{◌≡◌, ◌↔◌, IsTrue, Any, map};
ghost use Rattle.std.specs.List.Sorted.{IsNonDecreasingBy};
ghost use Rattle.xn_rules.specs.NameRules.{HasRightDotdot};
ghost use Rattle.xn_names.specs.Names.{naming_of};

use crate::entry::Naming;
use crate::order::naming;
use xn_inode::Super;

/// Whether dotdot is the root's number for the root, and for another directory that of one in which an entry names it; where none
/// does it may be any.
pub fn has_dotdot(geometry: &Super, namings: &[Naming], dir: u64, dotdot: u64) -> bool
    requires { IsNonDecreasingBy (λ n. n.ino) namings.now }
    ensures { IsTrue result ↔ HasRightDotdot geometry.now (map naming_of namings.now) dir dotdot }
{
    if dir == geometry.root() {
        return dotdot == geometry.root();
    }
    let named = naming(namings, dir);
    named.is_empty() || any_stands_in(named, dotdot)
}

fn any_stands_in(namings: &[Naming], dir: u64) -> bool
    ensures { IsTrue result ↔ Any (λ n. n.dir ≡ dir) namings.now }
{
    namings.iter().any(|naming| naming.dir == dir)
}
