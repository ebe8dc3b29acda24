//! Of each image the checker answers one thing at most: an inode of which all rules hold breaks none, of an image that is accepted no
//! rule is told, and whatever is answered is all that could be answered.
#![tactic(auto)]

ghost use Rattle.std.specs.Prelude.{◌≡◌, ℕ, List};
ghost use Rattle.xn_bytes.specs.Superblock.{Geometry};
ghost use Rattle.xn_bytes.specs.Extents.{Run};
ghost use Rattle.xn_meaning.specs.Manifests.{Manifest};
ghost use Rattle.xn_meaning.specs.NameSpace.{End};
ghost use Rattle.xn_rules.specs.Checking.{CheckEnds};
ghost use Rattle.xn_rules.specs.NameRules.{BreaksRule, Stands};
ghost use Rattle.xn_rules.specs.Namings.{Naming};
ghost use Rattle.xn_rules.specs.Sound.{FirstBroken, Sound};

/// An inode of which all rules hold breaks none.
pub fn what_stands_breaks_nothing()
    ensures { (g : Geometry) (m : Manifest) (image : List ℕ) (namings : List Naming) (ino rule block : ℕ) → Stands g m image namings ino → ¬ BreaksRule g m image namings ino rule block }
{}

/// Of an image that is accepted no rule is told.
pub fn accepted_images_break_nothing()
    ensures { (g : Geometry) (m : Manifest) (image live : List ℕ) (namings : List Naming) (runs : List Run) (rule inode block : ℕ) → Sound g m image live namings runs → ¬ FirstBroken g m image rule inode block }
{}

/// Of each image `check` answers one thing at most.
pub fn images_have_one_answer()
    ensures { (g : Geometry) (m : Manifest) (image : List ℕ) (one other : End) → CheckEnds g m image one → CheckEnds g m image other → one ≡ other }
{}
