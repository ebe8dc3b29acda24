//! What holds of machines whose superblock is accepted.

ghost use Rattle.std.specs.Prelude.{◌≡◌, ℕ, ◌*◌, ◌^◌, ◌<◌, List, Option, IfSome, length};
ghost use Rattle.xn_bytes.specs.Superblock.{IsSuperblock, geometry_of};
ghost use Rattle.xn_ring.specs.Places.{HasRing};

/// A machine with an accepted superblock has the ring that `Ring::scan` asks for.
pub fn accepted_superblocks_have_a_ring()
    ensures { (superblock : List ℕ) (image : Option (List ℕ)) (sectors read_faults reads : ℕ) → IsSuperblock superblock sectors
        → IfSome image (λ x. length x ≡ 512 * sectors) → (sectors < 2 ^ 64) × (read_faults < 2 ^ 64) × (reads < 2 ^ 64)
        → HasRing (geometry_of superblock) image sectors read_faults reads }
{}
