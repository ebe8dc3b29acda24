//! What the replies over an image have to do with the map of its names.

ghost use Rattle.std.specs.Prelude.{ℕ, List};
ghost use Rattle.xn_meaning.specs.NameSpace.{AreLinesOfMap};
ghost use Rattle.xn_bytes.specs.Superblock.{Geometry};
ghost use Rattle.xn_meaning.specs.Replies.{Reply, Line, ListOf};
ghost use Rattle.xn_meaning.specs.Manifests.{Manifest};
ghost use Rattle.xn_meaning.specs.Paths.{parts_of};
ghost use Rattle.xn_meaning.specs.NameSpace.{Says, Walks, NameMap, TakesInMap};
ghost use Rattle.xn_meaning.specs.Reading.{ListEnds, ResolveEnds, HasMap, root_place};

/// Where the directories of an image have a map of their names, each reply of `resolve` is that of the walk of the path
/// through this map.
pub fn replies_are_those_of_the_map()
    ensures { (g : Geometry) (m : Manifest) (image path : List ℕ) (names : NameMap) (reply : Reply) → HasMap g m image names → ResolveEnds g m path image (Says reply) → Walks (TakesInMap names) (root_place g) (parts_of path) (Says reply) }
{}

/// Each list that `list` answers is then that of the names which the map has in the directory.
pub fn lists_are_those_of_the_map()
    ensures { (g : Geometry) (m : Manifest) (image : List ℕ) (names : NameMap) (dir : ℕ) (lines : List Line) → HasMap g m image names → ListEnds g m dir image (Says (ListOf lines)) → AreLinesOfMap (names dir) lines }
{}
