//! Parent records against the entries that ask for them.

ghost use Rattle.std.specs.Prelude.{◌≡◌, ◌↔◌, IsTrue, IsPermutation, length, map};
ghost use Rattle.std.specs.List.{AllAdjacentBelow};
ghost use Rattle.xn_bytes.specs.ParentRecords.{IsBefore};
ghost use Rattle.xn_items.specs.Viewed.{record_of};
ghost use Rattle.xn_names.specs.Names.{asked_by, IsByPlace, HasOneGeneration};

use crate::entry::Naming;
use xn_items::ParentRec;

/// Whether parent records in order are those that entries ask for, which stand by directory and name.
pub fn are_records(namings: &[Naming], parents: &[ParentRec]) -> bool
    requires { IsByPlace namings.now }
    ensures { HasOneGeneration namings.now → (let records = map record_of parents.now in AllAdjacentBelow IsBefore records (length records))
        → (IsTrue result ↔ IsPermutation (map record_of parents.now) (map asked_by namings.now)) }
{
    if namings.len() != parents.len() {
        return false;
    }
    for place in 0..namings.len() {
        if !asks_for(&namings[place], &parents[place]) {
            return false;
        }
    }
    true
}

/// Whether this is the record that an entry asks for.
fn asks_for(naming: &Naming, parent: &ParentRec) -> bool
    ensures { IsTrue result ↔ (asked_by naming.now ≡ record_of parent.now) }
{
    naming.dir == parent.dir
        && naming.generation == parent.generation
        && naming.name.bytes() == parent.name.bytes()
}
