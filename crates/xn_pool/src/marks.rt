//! The bits of words by their places, counted through all of the words; and the marks of words, by which those that aren't 0 are
//! found from the first one on: the bit at place `p` is the mark of word `p + 1`.

ghost use Rattle.std.specs.Prelude.{◌≡◌, ◌≢◌, ℕ, ◌+◌, ◌*◌, ◌/◌, ◌<◌, ◌≤◌, ◌↔◌, length, IsTrue, slice_index};
ghost use Rattle.xn_pool.specs.Marks.{bit_of, IsMarkedAt, IsLeafChanged, IsLeafFilled, AreMarkedBut, AreSummed, AreTrueBut, SameFrom, IsFirstOf};

/// So many bits has a word.
pub const WORD_BITS: usize = 64;

/// Whether the bit at a place is set.
pub fn is_marked(words: &[u64], place: usize) -> bool
    requires { place / 64 < length words.now }
    ensures { IsTrue result ↔ (bit_of words.now place ≡ 1) }
{
    words[place / WORD_BITS] >> (place % WORD_BITS) & 1 == 1
}

/// Sets the bit at a place.
fn mark(words: &mut [u64], place: usize)
    requires { place / 64 < length words.old }
    ensures { IsMarkedAt words.old words.new place 1 }
{
    words[place / WORD_BITS] |= 1 << (place % WORD_BITS);
}

/// Clears the bit at a place.
fn unmark(words: &mut [u64], place: usize)
    requires { place / 64 < length words.old }
    ensures at { IsMarkedAt words.old words.new place 0 }
    ensures no_more { slice_index words.new (place / 64) ≤ slice_index words.old (place / 64) }
{
    words[place / WORD_BITS] &= !(1 << (place % WORD_BITS));
}

/// The first place of a word whose bit is set.
pub fn first_of(words: &[u64], word: usize) -> usize
    requires within { word < length words.now }
    requires some { slice_index words.now word ≢ 0 }
    requires small { 64 * length words.now ≤ usize.MAX }
    ensures { IsFirstOf words.now word result }
{
    WORD_BITS * word + words[word].trailing_zeros() as usize
}

/// Sets a bit of a leaf, and the marks above it.
pub fn set(words: &mut [u64], place: usize)
    requires within { place / 64 < length words.old }
    requires marked { AreMarkedBut 0 words.old }
    ensures { (first_leaf : ℕ) → 64 * first_leaf ≤ place → AreSummed first_leaf words.old → IsLeafChanged first_leaf words.old words.new place 1 }
{
    mark(words, place);
    raise(words, place / WORD_BITS);
}

/// Clears a bit of a leaf, and the marks above it that are no longer true.
pub fn clear(words: &mut [u64], place: usize)
    requires within { place / 64 < length words.old }
    requires leaf { length words.old ≤ place + 1 }
    requires marked { AreMarkedBut 0 words.old }
    ensures { (first_leaf : ℕ) → 64 * first_leaf ≤ place → AreSummed first_leaf words.old → IsLeafChanged first_leaf words.old words.new place 0 }
{
    unmark(words, place);
    lower(words, place / WORD_BITS);
}

/// Sets so many bits of a leaf, from its first one on, and clears its others; and sets the marks above it.
pub fn fill(words: &mut [u64], word: usize, bits: u32)
    requires within { word < length words.old }
    requires leaf { length words.old ≤ 64 * word + 1 }
    requires some { 0 < bits }
    requires few { bits ≤ 64 }
    requires marked { AreMarkedBut 0 words.old }
    ensures { (first_leaf : ℕ) → first_leaf ≤ word → AreSummed first_leaf words.old → IsLeafFilled first_leaf words.old words.new word bits }
{
    words[word] = u64::MAX >> (u64::BITS - bits);
    raise(words, word);
}

/// Marks a word that has got a bit, where it had none, and each word above it.
fn raise(words: &mut [u64], mut word: usize)
    requires within { word < length words.old }
    requires some { slice_index words.old word ≢ 0 }
    requires marked { AreMarkedBut word words.old }
    ensures marked { AreMarkedBut 0 words.new }
    ensures told { (limit : ℕ) → length words.old ≤ limit + 1 → AreTrueBut 0 limit words.old → AreTrueBut 0 limit words.new }
    ensures same { (first : ℕ) → length words.old ≤ 64 * first + 1 → SameFrom first words.old words.new }
{
    while word > 0 && !is_marked(words, word - 1) {
        mark(words, word - 1);
        word = (word - 1) / WORD_BITS;
    }
}

/// Takes the mark from a word that has lost its last bit, if it has, and from each word above it that loses its last one so.
fn lower(words: &mut [u64], mut word: usize)
    requires within { word < length words.old }
    requires marked { AreMarkedBut 0 words.old }
    ensures marked { AreMarkedBut 0 words.new }
    ensures told { (limit : ℕ) → length words.old ≤ limit + 1 → AreTrueBut word limit words.old → AreTrueBut 0 limit words.new }
    ensures same { (first : ℕ) → length words.old ≤ 64 * first + 1 → SameFrom first words.old words.new }
{
    while word > 0 && words[word] == 0 {
        unmark(words, word - 1);
        word = (word - 1) / WORD_BITS;
    }
}
