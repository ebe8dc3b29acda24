//! An image that is accepted means a name space, and one.
#![tactic(auto)]

ghost use Rattle.std.specs.Prelude.{ℕ, List};
ghost use Rattle.xn_bytes.specs.Superblock.{Geometry};
ghost use Rattle.xn_bytes.specs.Extents.{Run};
ghost use Rattle.xn_meaning.specs.Manifests.{Manifest};
ghost use Rattle.xn_meaning.specs.NameSpaces.{AreOneSpace, IsNameSpace, NameSpace};
ghost use Rattle.xn_rules.specs.Namings.{Naming};
ghost use Rattle.xn_rules.specs.Sound.{Sound};
ghost use Rattle.xn_rules.specs.Means.{Means};

/// An image that is accepted means a name space.
pub fn accepted_images_mean_a_name_space()
    ensures { (g : Geometry) (m : Manifest) (image live : List ℕ) (namings : List Naming) (runs : List Run) → Sound g m image live namings runs → (s : NameSpace) × Means g m image s }
{}

/// What an image means is a name space.
pub fn what_is_meant_is_a_name_space()
    ensures { (g : Geometry) (m : Manifest) (image : List ℕ) (s : NameSpace) → Means g m image s → IsNameSpace s }
{}

/// An image means one name space at most.
pub fn images_mean_one_name_space()
    ensures { (g : Geometry) (m : Manifest) (image : List ℕ) (s t : NameSpace) → Means g m image s → Means g m image t → AreOneSpace s t }
{}
