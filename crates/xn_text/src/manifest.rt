//! The manifest of an image, as it was read.

ghost use Rattle.std.specs.Prelude.{◌≡◌, ◌↔◌, IsTrue};
ghost use Rattle.xn_meaning.specs.Manifests.{AreChunks, ArePoolRuns, ChunkLists, IsManifest, Lists};

use std::marker::Model;

/// Which inodes of an image are in use, and which blocks are the pool's. Contracts see its chunks and its runs.
#[derive(Debug, Drop)]
pub struct Manifest {
    chunks: Vec<(u64, u64)>,
    runs: Vec<(u64, u64)>,
}

impl Model for Manifest {
    ghost use Rattle.xn_meaning.specs.Manifests.{Manifest as Said};

    ghost Value = { Said };

    ghost use Rattle.xn_text.specs.Manifest.{said_in, IsSaid};

    ghost view = { said_in };

    ghost invariant = { IsSaid };
}

impl Manifest {
    /// The manifest with these chunks and runs. It takes no memory.
    pub fn new(chunks: Vec<(u64, u64)>, runs: Vec<(u64, u64)>) -> Manifest
        requires { IsManifest (record { chunks = chunks.items; runs = runs.items }) }
        ensures { result ≡ record { chunks = chunks.items; runs = runs.items } }
    {
        Manifest { chunks, runs }
    }

    /// The chunks, each 64 inodes from its first one on, with a mask of those that are not in use. They rise.
    pub fn chunks(&self) -> &[(u64, u64)]
        ensures chunks { result.now ≡ self.now.chunks }
        ensures lawful { AreChunks 0 self.now.chunks }
    {
        &self.chunks
    }

    /// The runs of the pool, each with its first block and how many blocks it has. They rise.
    pub fn runs(&self) -> &[(u64, u64)]
        ensures runs { result.now ≡ self.now.runs }
        ensures lawful { ArePoolRuns 0 self.now.runs }
    {
        &self.runs
    }

    /// Whether an inode is listed. It looks at as many chunks as a search by halves needs.
    pub fn holds(&self, number: u64) -> bool
        ensures { IsTrue result ↔ Lists self.now number }
    {
        let after = self.chunks.partition_point(|chunk| chunk.0 <= number);
        if after == 0 {
            return false;
        }
        lists(self.chunks[after - 1], number)
    }
}

/// Whether a chunk lists an inode.
fn lists(chunk: (u64, u64), number: u64) -> bool
    ensures { IsTrue result ↔ ChunkLists number chunk }
{
    let (start, mask) = chunk;
    start <= number && number - start < 64 && mask >> (number - start) & 1 == 0
}
