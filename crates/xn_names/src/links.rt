//! The links of an inode.

ghost use Rattle.std.specs.Prelude.{◌≡◌, ◌↔◌, IsTrue, length, map, count_by};
ghost use Rattle.std.specs.List.Sorted.{IsNonDecreasingBy};
ghost use Rattle.xn_rules.specs.Namings.{naming as naming_inode, standing_in};
ghost use Rattle.xn_rules.specs.NameRules.{says_directory, HasDirectoryLinks};
ghost use Rattle.xn_names.specs.Names.{naming_of};

use crate::entry::Naming;
use crate::order::naming;
use crate::tree::is_unnamed;
use xn_inode::Super;

/// Whether an inode that is no directory, and that these entries name, has as many links.
pub fn has_links(naming: &[Naming], nlink: u32) -> bool
    ensures { IsTrue result ↔ (nlink ≡ length naming.now) }
{
    nlink as usize == naming.len()
}

/// Whether a directory, in which so many entries say of their inode that it is a directory, has 2 links and one for each of those;
/// or none where it is detached.
pub fn has_directory_links(
    geometry: &Super,
    namings: &[Naming],
    dir: u64,
    subdirectories: u64,
    nlink: u32,
) -> bool
    requires { IsNonDecreasingBy (λ n. n.ino) namings.now }
    ensures { subdirectories ≡ count_by says_directory (standing_in dir (map naming_of namings.now))
        → (IsTrue result ↔ HasDirectoryLinks geometry.now (map naming_of namings.now) dir nlink) }
{
    if is_unnamed(geometry, namings, dir) {
        nlink == 0
    } else {
        nlink >= 2 && (nlink - 2) as u64 == subdirectories
    }
}
