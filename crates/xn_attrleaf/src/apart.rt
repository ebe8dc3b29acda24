//! Whether the names of a leaf lie apart from each other. It takes one pass: each name marks its bytes.

ghost use Rattle.std.specs.Prelude.{◌≡◌, ◌↔◌, ◌≤◌, All, AllPairs, IsTrue, MatchBool, length};
ghost use Rattle.xn_bytes.specs.Numbers.{number_at};
ghost use Rattle.xn_bytes.specs.AttributeLeaves.{AreDisjoint, IsWithin, attr_entries};
ghost use Rattle.xn_attrleaf.specs.Marks.{Takes, IsTaken};

use crate::entry::{BLOCK, entry_in, name_size};
use crate::read::count_in;

/// Whether no name of a leaf overlaps another.
pub(crate) fn are_apart(block: &[u8]) -> bool
    requires size { length block.now ≡ 4096 }
    requires few { number_at 2 56 block.now ≤ 502 }
    requires within { All (IsWithin block.now) (attr_entries block.now) }
    ensures { IsTrue result ↔ AllPairs (AreDisjoint block.now) (attr_entries block.now) }
{
    let mut marks = [0; BLOCK];
    for index in 0..count_in(block) {
        let entry = entry_in(block, index);
        let from = usize::from(entry.place);
        if !take(&mut marks, from, from + name_size(block, entry)) {
            return false;
        }
    }
    true
}

/// Marks the bytes of a name, where none of them is marked.
fn take(marks: &mut [u8], from: usize, to: usize) -> bool
    requires order { from ≤ to }
    requires within { to ≤ length marks.old }
    ensures { MatchBool result (Takes from to marks.old marks.new) (IsTaken from to marks.old) }
{
    if !are_free(&marks[from..to]) {
        return false;
    }
    marks[from..to].fill(1);
    true
}

fn are_free(marks: &[u8]) -> bool
    ensures { IsTrue result ↔ All (λ mark. mark ≡ 0) marks.now }
{
    marks.iter().all(|mark| *mark == 0)
}
