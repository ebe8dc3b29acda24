ghost use Rattle.std.specs.Prelude.{◌≡◌, ℕ, List};

use std::marker::Model;
use xn_bytes::Bytes;

/// The words of a map of changed pieces. Contracts see their list.
#[derive(Debug, Drop)]
pub struct MapWords {
    words: Vec<u32>,
}

impl Model for MapWords {
    ghost Value = { List ℕ };

    ghost view = { λ m. m.words.items };
}

impl MapWords {
    /// These words. It takes no memory.
    pub fn new(words: Vec<u32>) -> MapWords
        ensures { result ≡ words.items }
    {
        MapWords { words }
    }

    pub fn as_slice(&self) -> &[u32]
        ensures { result.now ≡ self.now }
    {
        &self.words
    }
}

/// Regions of an item, each a number of bytes. Contracts see their list.
#[derive(Debug, Drop)]
pub struct Regions {
    regions: Vec<Bytes>,
}

impl Model for Regions {
    ghost Value = { List (List ℕ) };

    ghost view = { λ r. r.regions.items };
}

impl Regions {
    /// These regions. It takes no memory.
    pub fn new(regions: Vec<Bytes>) -> Regions
        ensures { result ≡ regions.items }
    {
        Regions { regions }
    }

    pub fn as_slice(&self) -> &[Bytes]
        ensures { result.now ≡ self.now }
    {
        &self.regions
    }
}
