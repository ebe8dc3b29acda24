//! What the reading commands answer of an accepted image is a reply, as each inode and each directory is right, and it is
//! that of the name space.

ghost use Rattle.std.specs.Prelude.{◌≡◌, ℕ, List};
ghost use Rattle.xn_bytes.specs.Superblock.{Geometry};
ghost use Rattle.xn_meaning.specs.Manifests.{Manifest};
ghost use Rattle.xn_meaning.specs.Replies.{Reply};
ghost use Rattle.xn_meaning.specs.NameSpace.{End, Says};
ghost use Rattle.xn_meaning.specs.NameSpaces.{NameSpace, ListsOf, ResolvesOf, ParentsOfInode};
ghost use Rattle.xn_meaning.specs.Reading.{ListEnds, ResolveEnds, ParentsEnd};
ghost use Rattle.xn_rules.specs.Means.{Means};

/// What `list` answers of an inode of an accepted image is a reply, and that of its name space.
pub fn lists_are_those_of_the_name_space()
    ensures { (g : Geometry) (m : Manifest) (image : List ℕ) (s : NameSpace) (ino : ℕ) (end : End) → Means g m image s → ListEnds g m ino image end → (reply : Reply) × (end ≡ Says reply) × ListsOf s ino reply }
{}

/// What `resolve` answers of a path is the end of the walk through the names of the name space.
pub fn walks_are_those_of_the_name_space()
    ensures { (g : Geometry) (m : Manifest) (image path : List ℕ) (s : NameSpace) (end : End) → Means g m image s → ResolveEnds g m path image end → (reply : Reply) × (end ≡ Says reply) × ResolvesOf s path reply }
{}

/// What `parents` answers of an inode are the names that name it, turned round.
pub fn parents_are_those_of_the_name_space()
    ensures { (g : Geometry) (m : Manifest) (image : List ℕ) (s : NameSpace) (ino : ℕ) (end : End) → Means g m image s → ParentsEnd g m ino image end → (reply : Reply) × (end ≡ Says reply) × ParentsOfInode s ino reply }
{}
