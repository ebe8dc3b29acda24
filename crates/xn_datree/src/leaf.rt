ghost use Rattle.std.specs.Prelude.{◌≡◌, ◌≢◌, ◌↔◌, ◌+◌, ◌<◌, ◌≤◌, ℕ, List, [], length, drop, sum_by, true, All, Option, Some, None, IfOk, IfSome, MatchResult};
ghost use Rattle.std.specs.List.Sorted.{IsNonDecreasingBy};
ghost use Rattle.xn_bytes.specs.Numbers.{number_at};
ghost use Rattle.xn_bytes.specs.Checksum.{HasChecksum};
ghost use Rattle.xn_bytes.specs.HashedTree.{single_leaf_magic};
ghost use Rattle.xn_datree.specs.Leaves.{IsLeafFault, KeepsHeader, HasSameBody, ends_of_list};

use std::alloc::Global;
use xn_bytes::Memory;

/// Why a leaf's entries were not read.
#[derive(Clone, Copy, Debug, PartialEq, Eq)]
pub enum LeafFault {
    /// The bytes are no such leaf, which breaks this rule of the checker.
    Bad { rule: u8 },
    /// Memory ran out.
    Memory,
}

/// A leaf of a hashed tree: a block of entries that are sorted by hash. Its implementations tell what the entries are and
/// how they stand in 4,096 bytes; owner, place, uuid and siblings are for the tree to compare.
pub trait Leaf {
    /// What a leaf holds many of. Two are `==` exactly where they are the same.
    type Entry: Eq + Drop;

    /// How many bytes the entries of a leaf may take together.
    const CAPACITY: u64;

    ghost CAPACITY: { ℕ };

    /// The rule of the checker that bytes break which are no such leaf.
    ghost rule: { ℕ };

    /// The bytes are a leaf with these entries, in order. There may be stale ones besides.
    ghost Holds: { List ℕ → List Self.Entry → Type 0 };

    /// The first and the last hash in a leaf, stale entries counted.
    ghost ends: { List ℕ → Option (ℕ × ℕ) };

    ghost hash: { Self.Entry → ℕ };

    ghost size: { Self.Entry → ℕ };

    /// An entry that a leaf can hold.
    ghost IsLawful: { Self.Entry → Type 0 };

    /// The entries of a leaf, in order, stale ones left out.
    fn entries(alloc: Global, block: &[u8]) -> Result<Vec<Self::Entry>, LeafFault>
        requires { length block.now ≡ 4096 }
        ensures { MatchResult result (λ entries. Holds block.now entries.items) (IsLeafFault rule ((entries : List Self.Entry) → ¬ Holds block.now entries)) };

    /// The first and the last hash in a leaf, stale entries counted; None where it has no entry.
    fn bounds(block: &[u8]) -> Option<(u32, u32)>
        requires size { length block.now ≡ 4096 }
        requires leaf { (entries : List Self.Entry) × Holds block.now entries }
        ensures { result ≡ ends block.now };

    /// By what an entry is found.
    fn hash_of(entry: &Self::Entry) -> u32
        ensures { result ≡ hash entry.now };

    /// How many bytes an entry takes.
    fn size_of(entry: &Self::Entry) -> u64
        ensures { result ≡ size entry.now };

    /// Makes the block a leaf with these entries, and none stale; with a right checksum. Siblings, owner, place and uuid stay.
    fn fill(block: &mut [u8], entries: &[Self::Entry])
        requires size { length block.old ≡ 4096 }
        requires lawful { All IsLawful entries.now }
        requires sorted { IsNonDecreasingBy hash entries.now }
        requires fits { sum_by size entries.now ≤ CAPACITY }
        ensures holds { Holds block.new entries.now }
        ensures ends { ends block.new ≡ ends_of_list hash entries.now }
        ensures tree { number_at 2 8 block.new ≢ single_leaf_magic }
        ensures header { KeepsHeader block.old block.new };

    /// The same entry once more.
    fn copy(alloc: Global, entry: &Self::Entry) -> Result<Self::Entry, Memory>
        ensures { IfOk result (λ copy. copy ≡ entry.now) };

    /// A block holds one list of entries.
    ghost holds_once: { (bytes : List ℕ) (entries others : List Self.Entry) → Holds bytes entries → Holds bytes others → entries ≡ others };

    ghost are_lawful: { (bytes : List ℕ) (entries : List Self.Entry) → Holds bytes entries → All IsLawful entries };

    ghost are_sorted: { (bytes : List ℕ) (entries : List Self.Entry) → Holds bytes entries → IsNonDecreasingBy hash entries };

    ghost fit: { (bytes : List ℕ) (entries : List Self.Entry) → Holds bytes entries → sum_by size entries ≤ CAPACITY };

    ghost within_ends: { (bytes : List ℕ) (entries : List Self.Entry) → Holds bytes entries → IfSome (ends bytes) (λ both. (both.0 ≤ both.1) × All (λ entry. (both.0 ≤ hash entry) × (hash entry ≤ both.1)) entries) };

    ghost none_without_ends: { (bytes : List ℕ) (entries : List Self.Entry) → Holds bytes entries → ends bytes ≡ None → entries ≡ [] };

    ghost some_size: { (entry : Self.Entry) → IsLawful entry → 0 < size entry };

    ghost equal_is_same: { (entry other : Self.Entry) → (Self.Entry.eq entry other ≡ true) ↔ (entry ≡ other) };

    ghost by_body: { (bytes others : List ℕ) (entries : List Self.Entry) → HasSameBody bytes others → Holds bytes entries → Holds others entries × (ends others ≡ ends bytes) };
}
